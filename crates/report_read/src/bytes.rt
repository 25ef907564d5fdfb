// The front of a text.
ghost use Rattle.std.specs.Prelude.{◌≡◌};
ghost use Rattle.goal_words.specs.Views.{FindsRest, FindsWord};
ghost use Rattle.report_read.specs.Bytes as spec;

/// What stands behind these first bytes, where the text begins with them.
pub fn after<'a>(first: &[u8], bytes: &'a [u8]) -> Option<&'a [u8]>
    ensures { FindsRest result (spec.after first.now bytes.now) }
{
    let mut first = first;
    let mut rest = bytes;
    while let Some((wanted, more)) = first.split_first() {
        let (found, behind) = rest.split_first()?;
        if found != wanted {
            return None;
        }
        first = more;
        rest = behind;
    }
    Some(rest)
}

/// The bytes up to the first of this kind, and what stands behind it; none where the line ends before.
#[tactic(auto, using(crate::proofs::Fronts::until_begins, crate::proofs::Fronts::until_over))]
pub fn until(end: u8, bytes: &[u8]) -> Option<(&[u8], &[u8])>
    ensures { FindsWord result (spec.until end bytes.now) }
{
    let mut at = 0;
    while at < bytes.len() {
        let byte = bytes[at];
        if byte == end {
            return Some((&bytes[..at], &bytes[at + 1..]));
        }
        if byte == b'\n' {
            return None;
        }
        at += 1;
    }
    None
}
