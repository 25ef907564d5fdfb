// What the words ask for.

use report_shown::Wanted;
use wp_base::Str;

/// The form of a view.
#[derive(Clone, Copy, Debug, PartialEq, Eq)]
pub enum Form {
    Text,
    Html,
    Json,
    Csv,
}

/// The source and its report, which goals are shown, in which form, and whether in colour.
#[derive(Clone, Copy)]
pub struct Command<'a> {
    pub file: &'a Str,
    pub report: &'a Str,
    pub wanted: Wanted<'a>,
    pub form: Form,
    pub color: bool,
}
