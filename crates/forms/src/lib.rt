// The form of a word of a tree, by cases on its rule.
#![tactic(auto)]

ghost use Rattle.std.specs.Prelude.{◌≡◌};
ghost use Rattle.forms.specs.inside.Forms.{form_of};

use trees::Node;

// What the fields of a word say, by its rule. A rule is its number: the cases below are ranges of it.
#[derive(Clone, Copy)]
pub enum Form {
    Atom {
        rule: usize,
        atom: usize,
        position: usize,
    },
    Plain {
        rule: usize,
    },
    Counted {
        rule: usize,
        count: usize,
    },
}

// A word, by cases on its rule number: rules 3 to 10 have neither an atom nor a number, 11 to 16 have a count
// alone. None where its form fits no rule.
#[tactic(auto, unfolding(crate::specs::inside::Forms::form_of, crate::specs::inside::Forms::form_from))]
pub fn form_of(word: u32) -> Option<Form>
    ensures { result ≡ form_of word }
{
    let Node { rule, atom, number } = Node::from(word);
    match rule {
        1..=2 => Some(Form::Atom {
            rule,
            atom,
            position: number,
        }),
        3..=10 if atom == 0 && number == 0 => Some(Form::Plain { rule }),
        11..=16 if atom == 0 => Some(Form::Counted {
            rule,
            count: number,
        }),
        _ => None,
    }
}
