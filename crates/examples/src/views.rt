// The letter view, a line a position.
use schedule::LentLetters;
use std::io;

// What the view shows of two lists at a position.
fn show(rt: &impl Print, letters: LentLetters<'_>, position: usize) -> io::Result<()> {
    let prefix = letters.prefix.len();
    let looped = letters.looped.len();
    print!(rt; "view of {prefix} and {looped} letters at {position}:")?;
    for letter in letters.view(position) {
        print!(rt; " {letter}")?;
    }
    println!(rt)
}

// Lists that no schedule could have: the view has no limits.
fn long_views(rt: &impl Print) -> io::Result<()> {
    let long = LentLetters {
        prefix: &[0; 1000],
        looped: &[7; 60],
    };
    show(rt, long, 998)?;
    show(rt, long, 1057)?;
    show(
        rt,
        LentLetters {
            prefix: &[],
            ..long
        },
        178,
    )
}

pub fn views(rt: &impl Print) -> io::Result<()> {
    let letters = LentLetters {
        prefix: &[1],
        looped: &[4, 2],
    };
    for position in [0, 1, 2, 9223372036854775808] {
        show(rt, letters, position)?;
    }
    let none = LentLetters {
        prefix: &[],
        looped: &[],
    };
    show(rt, none, 0)?;
    show(
        rt,
        LentLetters {
            looped: &[],
            ..letters
        },
        5,
    )?;
    long_views(rt)
}
