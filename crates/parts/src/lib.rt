// What a node asks of its parts, and the part that stands at a place. A rule is its number here too, as in
// the constant table, so what differs by rule is a match on it.
#![tactic(auto)]

ghost use Rattle.std.specs.Prelude.{◌≡◌, ◌+◌, ◌^◌, ◌≤◌, ◌<◌};
ghost use Rattle.nodes.specs.inside.Fits.{left_of, right_of};
ghost use Rattle.nodes.specs.inside.Demands.{opposite, first_of, verdict_of, plain_demands};
ghost use Rattle.nodes.specs.inside.Demands.{count_demands, Countable, demands_of, part_of};

use nodes::{Demands, Part, left_of, right_of};
use rules::Entry;
use trees::{Verdict, fixed};

// (A function for one use: Verdict is of another crate.)
fn turn(verdict: Verdict) -> Verdict
    ensures { result ≡ opposite verdict }
{
    match verdict {
        Verdict::Holds => Verdict::Violated,
        Verdict::Violated => Verdict::Holds,
    }
}

// Rules 6 and 10 have the right part alone, the others begin with the left one.
fn first_part(here: Entry, rule: usize) -> usize
    ensures { result ≡ first_of here rule }
{
    match rule {
        6 | 10 => right_of(here),
        _ => left_of(here),
    }
}

// Rules 3 and 4 turn the verdict.
fn part_verdict(needed: Verdict, rule: usize) -> Verdict
    ensures { result ≡ verdict_of needed rule }
{
    match rule {
        3 | 4 => turn(needed),
        _ => needed,
    }
}

// Rules 3 to 10: what the parts have to prove.
#[tactic(auto, unfolding(nodes::specs::inside::Demands::plain_demands))]
fn plain_demands(here: Entry, position: usize, verdict: Verdict, rule: usize) -> Demands
    requires { (3 ≤ rule) × (rule ≤ 10) }
    ensures { result ≡ plain_demands here position verdict rule }
{
    Demands {
        fixed: 1,
        first: Part {
            entry: first_part(here, rule),
            position,
        },
        member: right_of(here),
        from: position,
        count: fixed(rule) - 1,
        verdict: part_verdict(verdict, rule),
    }
}

// Rules 11 to 16: what the parts have to prove. Of those without a fixed part, 13 and 16, `first` is not
// read. (Limits are one named fact, `Countable`: a value of a type would be made for each node.)
#[tactic(auto, unfolding(nodes::specs::inside::Demands::count_demands))]
fn count_demands(
    here: Entry,
    position: usize,
    verdict: Verdict,
    rule: usize,
    count: usize,
) -> Demands
    requires { (11 ≤ rule) × Countable rule position count }
    ensures { result ≡ count_demands rule (left_of here) (right_of here) position count verdict }
{
    let left = left_of(here);
    let right = right_of(here);
    let list = Demands {
        fixed: fixed(rule),
        first: Part {
            entry: left,
            position: 0,
        },
        member: right,
        from: position,
        count,
        verdict,
    };
    match rule {
        11 => Demands {
            first: Part {
                entry: right,
                position: position - count,
            },
            member: left,
            from: position - count + 1,
            ..list
        },
        12 => Demands {
            first: Part {
                entry: left,
                position: position + 1 - count,
            },
            from: position + 1 - count,
            ..list
        },
        13 => Demands { from: 0, ..list },
        14 => Demands {
            first: Part {
                entry: right,
                position: position + count,
            },
            member: left,
            ..list
        },
        15 => Demands {
            first: Part {
                entry: left,
                position: position + count - 1,
            },
            ..list
        },
        _ => list,
    }
}

// What the parts of a node of rules 3 to 16 have to prove, by its rule and its number,
// where it is known that a rule fits it.
#[tactic(auto, unfolding(nodes::specs::inside::Demands::demands_of))]
pub fn demands_of(here: Entry, position: usize, verdict: Verdict, rule: usize, n: usize) -> Demands
    requires { (3 ≤ rule) × Countable rule position n }
    ensures { result ≡ demands_of here position verdict rule n }
{
    if rule <= 10 {
        return plain_demands(here, position, verdict, rule);
    }
    count_demands(here, position, verdict, rule, n)
}

// The part that stands at a place in tree order.
#[tactic(auto, unfolding(nodes::specs::inside::Demands::part_of))]
pub fn part_at(demands: Demands, m: usize) -> Part
    requires { (m < demands.fixed + demands.count) × (demands.from + demands.count < 2 ^ 63) }
    ensures { result ≡ part_of demands m }
{
    if m < demands.fixed {
        return demands.first;
    }
    Part {
        entry: demands.member,
        position: demands.from + (m - demands.fixed),
    }
}
