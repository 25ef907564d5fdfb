// Where annotations stand, and so what is around them (ACSL 2.2).
ghost use Rattle.std.specs.Prelude.{◌≡◌};
ghost use Rattle.acsl_names.specs.Names.{view_around};
ghost use Rattle.acsl_names.specs.Sites as spec;

use crate::names::{Around, Definitions, Site};
use c_kinds::Machdep;
use c_scopes::{File, Object};
use name_table::Scopes;
use typed_prog::CoreType;

/// What a file declares before an annotation.
#[derive(Clone, Copy)]
pub struct Before<'a> {
    pub model: Machdep,
    /// How many cells each struct of the file has.
    pub sizes: &'a [u32],
    pub file: &'a File,
    /// How many ordinary names and how many tags of the file.
    pub names: usize,
    pub tags: usize,
}

/// The function whose contract or body an annotation stands in.
#[derive(Clone, Copy)]
pub struct Within<'a> {
    /// Its parameters, and then its locals.
    pub objects: &'a [Object],
    pub params: usize,
    /// The type of its result.
    pub result: &'a CoreType,
}

impl<'a> Before<'a> {
    /// What is around an annotation of a function, or of a definition with the number `itself`, where these locals are in scope.
    pub fn around(
        self,
        definitions: &'a Definitions,
        blocks: &'a Scopes<u32>,
        within: Within<'a>,
        site: Site,
        itself: Option<u32>,
    ) -> Around<'a>
        ensures { view_around result ≡ spec.around (spec.view_before self.entry) definitions.now blocks.now (spec.view_within within.entry) site itself }
    {
        Around {
            model: self.model,
            sizes: self.sizes,
            file: self.file,
            names: self.names,
            tags: self.tags,
            definitions,
            blocks,
            objects: within.objects,
            params: within.params,
            site,
            result: within.result,
            itself,
            down: None,
        }
    }
}
