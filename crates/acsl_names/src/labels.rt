// Labels (ACSL 2.4.3), and what may stand under them.
ghost use Rattle.std.specs.Prelude.{◌≡◌};
ghost use Rattle.acsl_names.specs.Labels as spec;
ghost use Rattle.acsl_names.specs.Names.{view_around};

use crate::names::{Around, Reading, Site};
use acsl_trees::Label;
use wp_base::Str;

impl Site {
    /// Whether `\result`, `\old` and `\at` may stand here.
    pub fn has_labels(self) -> bool
        ensures { result ≡ spec.has_labels self }
    {
        match self {
            Site::Definition => false,
            Site::Contract | Site::Ensures | Site::Code(_) => true,
        }
    }

    /// Whether `\result` and the state at the return may stand here.
    pub fn is_ensures(self) -> bool
        ensures { result ≡ spec.is_ensures self }
    {
        match self {
            Site::Ensures => true,
            Site::Definition | Site::Contract | Site::Code(_) => false,
        }
    }

    /// How many locals were declared where the loop around began; none outside loops.
    pub fn loop_locals(self) -> Option<u32>
        ensures { result ≡ spec.loop_locals self }
    {
        match self {
            Site::Code(entry) => entry,
            Site::Definition | Site::Contract | Site::Ensures => None,
        }
    }

    /// Whether it is in a contract.
    pub fn is_contract(self) -> bool
        ensures { result ≡ spec.is_contract self }
    {
        match self {
            Site::Contract | Site::Ensures => true,
            Site::Definition | Site::Code(_) => false,
        }
    }
}

fn label_if(stands: bool, label: Label) -> Option<Label>
    ensures { result ≡ spec.label_if stands label }
{
    if stands { Some(label) } else { None }
}

fn is_entry_label(name: &Str) -> bool
    ensures { result ≡ spec.is_entry_label name.now }
{
    name.bytes() == b"Pre".as_slice() || name.bytes() == b"Old".as_slice()
}

fn label_in(site: Site, name: &Str) -> Option<Label>
    ensures { result ≡ spec.label_in site name.now }
{
    if name.bytes() == b"Here".as_slice() {
        Some(Label::Here)
    } else if is_entry_label(name) {
        Some(Label::Pre)
    } else if name.bytes() == b"Post".as_slice() {
        label_if(site.is_ensures(), Label::Post)
    } else if name.bytes() == b"LoopEntry".as_slice() {
        label_if(site.loop_locals().is_some(), Label::LoopEntry)
    } else {
        None
    }
}

/// The label of this name; none where it is none, or where it may not stand.
#[tactic(auto, unfolding(crate::specs::Labels::label_at))]
pub fn label_at(site: Site, name: &Str) -> Option<Label>
    ensures { result ≡ spec.label_at site name.now }
{
    if site.has_labels() {
        label_in(site, name)
    } else {
        None
    }
}

/// The label that `\old` stands for; none where it may not stand.
pub fn old_at(site: Site) -> Option<Label>
    ensures { result ≡ spec.old_at site }
{
    label_if(site.has_labels(), Label::Pre)
}

impl Reading {
    /// No label stands around.
    pub fn current() -> Reading
        ensures { result ≡ spec.current }
    {
        Reading {
            pre: false,
            post: false,
            loop_entry: false,
        }
    }

    /// What stands around a term inside this label.
    pub fn under(self, label: Option<Label>) -> Reading
        ensures { result ≡ spec.under_if label self }
    {
        match label {
            None | Some(Label::Here) => self,
            Some(Label::Pre) => Reading { pre: true, ..self },
            Some(Label::Post) => Reading { post: true, ..self },
            Some(Label::LoopEntry) => Reading {
                loop_entry: true,
                ..self
            },
        }
    }
}

fn is_before(number: u32, count: Option<u32>) -> bool
    ensures { result ≡ spec.is_before number count }
{
    match count {
        Some(count) => number < count,
        None => true,
    }
}

impl Around<'_> {
    /// Whether a local may stand under these labels.
    #[tactic(auto, unfolding(crate::specs::Labels::may_stand))]
    pub fn may_stand(&self, reading: Reading, local: u32) -> bool
        ensures { result ≡ spec.may_stand (view_around self.now) reading local }
    {
        let at_entry = reading.pre || reading.post;
        (!at_entry || (local as usize) < self.params)
            && (!reading.loop_entry || is_before(local, self.site.loop_locals()))
    }

    /// Whether `&` may stand before a local under these labels.
    #[tactic(auto, unfolding(crate::specs::Labels::has_address))]
    pub fn has_address(&self, reading: Reading, local: u32) -> bool
        ensures { result ≡ spec.has_address (view_around self.now) reading local }
    {
        !((local as usize) < self.params && (self.site.is_contract() || reading.pre))
    }
}
