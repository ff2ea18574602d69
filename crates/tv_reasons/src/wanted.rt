//! What an input takes, in words.

ghost use Rattle.std.specs.Prelude.{◌≡◌};
ghost use Rattle.tv_reasons.specs.Reasons.{first_words};

use crate::line::printed;
use std::fmt;
use tv_valid::{DomainSpec, InputSpec};

/// What an input takes, in words: `a number from -5 to 5`, `as ##/##/####`, `at most 20 characters`.
///
/// `?` stands for each character that doesn't take one column.
#[derive(Clone, Copy)]
pub struct Wanted<'a>(pub &'a InputSpec);

impl<'a> fmt::Display for Wanted<'a> {
    fn fmt<W: fmt::Write>(&self, f: &mut fmt::Formatter<W>) -> fmt::Result {
        let spec = self.0;
        let first = first_words(&spec.domain);
        let further = Further(spec);
        write!(f, "{first}{further}")
    }
}

/// Returns the words that say first what an input of the domain takes.
pub(crate) fn first_words(domain: &DomainSpec) -> &'static str
    ensures { result.now ≡ first_words domain.now }
{
    match domain {
        DomainSpec::Any | DomainSpec::Filter(_) => "at most ",
        DomainSpec::Range { .. } => "a number from ",
        DomainSpec::Picture(_) => "as ",
    }
}

/// What an input takes, in the words behind the first.
#[derive(Drop)]
pub(crate) struct Further<'a>(pub &'a InputSpec);

impl<'a> fmt::Display for Further<'a> {
    fn fmt<W: fmt::Write>(&self, f: &mut fmt::Formatter<W>) -> fmt::Result {
        let spec = self.0;
        let count = Count(spec.max);
        match &spec.domain {
            DomainSpec::Any => return write!(f, "{count}"),
            DomainSpec::Filter(set) => {
                let set = Set(set.as_slice());
                return write!(f, "{count}, each of {set}");
            }
            DomainSpec::Range { least, greatest } => write!(f, "{least} to {greatest}")?,
            DomainSpec::Picture(picture) => {
                let picture = Spelled(picture.as_slice());
                write!(f, "{picture}")?;
            }
        }
        if is_cut(spec) {
            write!(f, ", in at most {count}")?;
        }
        if spec.optional {
            write!(f, ", or nothing")?;
        }
        Ok(())
    }
}

/// So many characters.
#[derive(Drop)]
struct Count(i32);

impl fmt::Display for Count {
    fn fmt<W: fmt::Write>(&self, f: &mut fmt::Formatter<W>) -> fmt::Result {
        let count = self.0;
        let ending = if count == 1 { "" } else { "s" };
        write!(f, "{count} character{ending}")
    }
}

/// The characters, one behind the other.
#[derive(Drop)]
struct Spelled<'a>(&'a [char]);

impl<'a> fmt::Display for Spelled<'a> {
    fn fmt<W: fmt::Write>(&self, f: &mut fmt::Formatter<W>) -> fmt::Result {
        for ch in self.0 {
            f.write_char(printed(*ch))?;
        }
        Ok(())
    }
}

/// The characters of a set. A space, which nobody would see, is named.
#[derive(Drop)]
struct Set<'a>(&'a [char]);

impl<'a> fmt::Display for Set<'a> {
    fn fmt<W: fmt::Write>(&self, f: &mut fmt::Formatter<W>) -> fmt::Result {
        let mut separator = "";
        for ch in self.0 {
            if *ch != ' ' {
                f.write_char(printed(*ch))?;
                separator = " or ";
            }
        }
        if self.0.contains(&' ') {
            write!(f, "{separator}a space")?;
        }
        Ok(())
    }
}

// Whether a number of the range is longer than what the input takes; or whether the picture's spelling is, or repeats
// something any number of times.
fn is_cut(spec: &InputSpec) -> bool {
    match &spec.domain {
        DomainSpec::Any | DomainSpec::Filter(_) => false,
        DomainSpec::Range { least, greatest } => {
            length_of(*least) > spec.max || length_of(*greatest) > spec.max
        }
        DomainSpec::Picture(picture) => {
            let picture = picture.as_slice();
            repeats_without_count(picture)
                || usize::try_from(spec.max).is_ok_and(|max| max < picture.len())
        }
    }
}

// Whether a `*` has no number behind it.
fn repeats_without_count(picture: &[char]) -> bool {
    let mut is_star = false;
    for ch in picture {
        if is_star && !ch.is_ascii_digit() {
            return true;
        }
        is_star = *ch == '*';
    }
    false
}

// How many characters the number has.
fn length_of(number: i32) -> i32 {
    let digits = number.unsigned_abs().checked_ilog10().unwrap_or(0) as i32;
    let sign = i32::from(number < 0);
    digits.saturating_add(1).saturating_add(sign)
}
