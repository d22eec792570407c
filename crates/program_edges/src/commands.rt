//! The commands of both programs, and which of them a word comes near to.

/// The commands of `busconf`.
pub const BUSCONF: &[&str] = &["run", "advice", "read", "read95", "maps", "rom", "make"];

/// The commands of `busview`.
pub const BUSVIEW: &[&str] = &[
    "packets", "tree", "dot", "json", "trace", "waves", "dot-run", "json-run", "explain",
    "capture", "script", "flawed", "resets", "nosy", "diff", "import",
];

/// The words that ask a program for something of itself.
const OF_ITSELF: &[&str] = &["--help", "--version"];

/// The program other than this one that has a command, if one has it.
pub(crate) fn other_program(program: &str, command: &str) -> Option<&'static str> {
    let (other, commands) = match program {
        "busconf" => ("busview", BUSVIEW),
        _ => ("busconf", BUSCONF),
    };
    commands.iter().any(|it| *it == command).then_some(other)
}

/// The command of this program that a word comes near to, if there is one.
pub(crate) fn nearest_command(program: &str, word: &str) -> Option<&'static str> {
    let commands = match program {
        "busconf" => BUSCONF,
        _ => BUSVIEW,
    };
    nearest(word, commands).or_else(|| nearest(word, OF_ITSELF))
}

/// The first of these words that a word comes near to: capitals and dashes before it don't count, and neither does one
/// letter that is another, missing or too much, nor two letters in turned order.
pub fn nearest(word: &str, among: &[&'static str]) -> Option<&'static str> {
    among
        .iter()
        .find(|it| is_near(undashed(word), undashed(it)))
        .copied()
}

/// A word without the dashes that it begins with.
fn undashed(word: &str) -> &[u8] {
    word.trim_start_matches('-').as_bytes()
}

/// Whether two texts are the same but for capitals.
fn are_same(one: &[u8], other: &[u8]) -> bool {
    one.len() == other.len()
        && one
            .iter()
            .zip(other.iter())
            .all(|(a, b)| a.eq_ignore_ascii_case(b))
}

/// Whether two texts that begin with other letters are the same but for the first letter of one or of both, or but for
/// the order of the first two.
fn differ_once(one: &[u8], other: &[u8]) -> bool {
    match (one, other) {
        ([a, b, cs @ ..], [c, d, ds @ ..])
            if a.eq_ignore_ascii_case(d) && b.eq_ignore_ascii_case(c) => { are_same(cs, ds) }
        ([_, cs @ ..], [_, ds @ ..]) => {
            are_same(cs, ds) || are_same(one, ds) || are_same(cs, other)
        }
        ([], rest) | (rest, []) => rest.len() <= 1,
    }
}

/// With how many letters two texts begin alike.
fn alike(one: &[u8], other: &[u8]) -> usize {
    for (at, (a, b)) in one.iter().zip(other.iter()).enumerate() {
        if !a.eq_ignore_ascii_case(b) {
            return at;
        }
    }
    one.len().min(other.len())
}

/// Whether two texts of two letters or more are the same, or differ once.
fn is_near(one: &[u8], other: &[u8]) -> bool {
    if one.len() < 2 {
        return false;
    }
    let front = alike(one, other);
    let (_, left) = one.split_at(front.min(one.len()));
    let (_, right) = other.split_at(front.min(other.len()));
    differ_once(left, right)
}
