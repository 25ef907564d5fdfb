// Declarations (C11 6.7; ACSL 2.6).
ghost use Rattle.std.specs.Prelude.{◌≡◌, IfOk, map};
ghost use Rattle.c_grammar.specs.Views.{Gives};
ghost use Rattle.parse_file.specs.Read as spec;
ghost use Rattle.parse_file.specs.Views.{view_found};
ghost use Rattle.c_syntax.specs.Decl as d;
ghost use Rattle.c_syntax.specs.View.{view_ctype, view_decl, view_logic};

use crate::forms::{Form, form_of, opens_params};
use crate::found::Found;
use crate::function::{contract_part, function_at, no_contract};
use crate::lines::only;
use acsl_parser::logics_at;
use c_grammar::{
    DEEPEST, Fault, MOST_WITHIN, Read, TypeNames, annot_close_at, annot_open_at, expect,
    first_line, new_name_at, punct_at, word_at,
};
use c_syntax::{CType, Decl, EnumDecl, LogicDecl, Punct, StructDecl, Token, Word};
use parse_decls::{declarator_at, enumerators_at, fields_at, linkage_at, variables_after};
use parse_types::type_at;
use std::alloc::Global;
use wp_base::{List, NoMemory};

// One declaration, and nothing beside it.
fn alone(alloc: Global, decl: Decl) -> Result<Found, NoMemory>
    ensures { IfOk result (λ x. view_found x ≡ spec.alone (view_decl decl)) }
{
    Ok(Found {
        decls: only(alloc, decl)?,
        names: List::new(alloc),
        lines: List::new(alloc),
    })
}

// Definitions as declarations.
fn logic_decls(alloc: Global, logics: List<LogicDecl>) -> Result<List<Decl>, NoMemory>
    ensures { IfOk result (λ x. map view_decl x ≡ map d.logic_decl (map view_logic logics)) }
{
    let mut decls = List::new(alloc);
    for logic in logics.into_vec() {
        decls.push(Decl::Logic(logic))?;
    }
    Ok(decls)
}

#[tactic(auto, unfolding(crate::specs::Read::definitions_at))]
fn definitions_at<'a>(alloc: Global, types: &TypeNames, tokens: &'a [Token]) -> Read<'a, Found>
    ensures { Gives view_found result (spec.definitions_at types.now tokens.now) }
{
    let Some((_, inside)) = annot_open_at(tokens) else {
        return Err(Fault::Syntax);
    };
    let (logics, rest) = logics_at(alloc, types, inside)?;
    let Some((_, rest)) = annot_close_at(rest) else {
        return Err(Fault::Syntax);
    };
    let found = Found {
        decls: logic_decls(alloc, logics)?,
        names: List::new(alloc),
        lines: List::new(alloc),
    };
    Ok((found, rest))
}

#[tactic(auto, unfolding(crate::specs::Read::contracted_at))]
fn contracted_at<'a>(
    alloc: Global,
    types: &TypeNames,
    end: usize,
    tokens: &'a [Token],
) -> Read<'a, Found>
    ensures { Gives view_found result (spec.contracted_at types.now end tokens.now) }
{
    let (contract, rest) = contract_part(alloc, types, end, tokens)?;
    let (ty, rest) = type_at(alloc, types, linkage_at(rest))?;
    function_at(alloc, types, end, first_line(tokens), contract, ty, rest)
}

#[tactic(auto, unfolding(crate::specs::Read::typedef_at))]
fn typedef_at<'a>(alloc: Global, types: &TypeNames, tokens: &'a [Token]) -> Read<'a, Found>
    ensures { Gives view_found result (spec.typedef_at types.now tokens.now) }
{
    let Some((_, rest)) = word_at(Word::Typedef, tokens) else {
        return Err(Fault::Syntax);
    };
    let (ty, rest) = type_at(alloc, types, rest)?;
    let (var, rest) = declarator_at(alloc, types, DEEPEST, ty, rest)?;
    let (_, rest) = expect(Punct::Semicolon, rest)?;
    let name = var.name.copy(alloc)?;
    let found = Found {
        decls: only(alloc, Decl::Typedef(var))?,
        names: only(alloc, name)?,
        lines: List::new(alloc),
    };
    Ok((found, rest))
}

#[tactic(auto, unfolding(crate::specs::Read::struct_at))]
fn struct_at<'a>(alloc: Global, types: &TypeNames, tokens: &'a [Token]) -> Read<'a, Found>
    ensures { Gives view_found result (spec.struct_at types.now tokens.now) }
{
    let Some((_, rest)) = word_at(Word::Struct, tokens) else {
        return Err(Fault::Syntax);
    };
    let ((name, line), rest) = new_name_at(alloc, types, rest)?;
    let (_, rest) = expect(Punct::OpenBrace, rest)?;
    let (fields, rest) = fields_at(alloc, types, MOST_WITHIN, rest)?;
    let (_, rest) = expect(Punct::CloseBrace, rest)?;
    let (_, rest) = expect(Punct::Semicolon, rest)?;
    let decl = Decl::Struct(StructDecl { name, fields, line });
    Ok((alone(alloc, decl)?, rest))
}

#[tactic(auto, unfolding(crate::specs::Read::enum_at))]
fn enum_at<'a>(alloc: Global, types: &TypeNames, tokens: &'a [Token]) -> Read<'a, Found>
    ensures { Gives view_found result (spec.enum_at types.now tokens.now) }
{
    let Some((line, rest)) = word_at(Word::Enum, tokens) else {
        return Err(Fault::Syntax);
    };
    if punct_at(Punct::OpenBrace, rest).is_some() {
        let (items, rest) = enumerators_at(alloc, types, DEEPEST, rest)?;
        let name = None;
        let decl = Decl::Enum(EnumDecl { name, items, line });
        return Ok((alone(alloc, decl)?, rest));
    }
    let ((name, line), rest) = new_name_at(alloc, types, rest)?;
    let (items, rest) = enumerators_at(alloc, types, DEEPEST, rest)?;
    let name = Some(name);
    let decl = Decl::Enum(EnumDecl { name, items, line });
    Ok((alone(alloc, decl)?, rest))
}

#[tactic(auto, unfolding(crate::specs::Read::globals_at))]
fn globals_at<'a>(
    alloc: Global,
    types: &TypeNames,
    ty: &CType,
    tokens: &'a [Token],
) -> Read<'a, Found>
    ensures { Gives view_found result (spec.globals_at types.now (view_ctype ty.now) tokens.now) }
{
    let (vars, rest) = variables_after(alloc, types, DEEPEST, ty, tokens)?;
    Ok((alone(alloc, Decl::Globals(vars))?, rest))
}

#[tactic(auto, unfolding(crate::specs::Read::plain_at))]
fn plain_at<'a>(
    alloc: Global,
    types: &TypeNames,
    end: usize,
    tokens: &'a [Token],
) -> Read<'a, Found>
    ensures { Gives view_found result (spec.plain_at types.now end tokens.now) }
{
    let (ty, rest) = type_at(alloc, types, linkage_at(tokens))?;
    if opens_params(rest) {
        let contract = no_contract(alloc);
        function_at(alloc, types, end, first_line(tokens), contract, ty, rest)
    } else {
        globals_at(alloc, types, &ty, rest)
    }
}

/// A declaration, and the tokens after it. `end` is the number of all tokens.
#[tactic(auto, unfolding(crate::specs::Read::decl_at))]
pub fn decl_at<'a>(
    alloc: Global,
    types: &TypeNames,
    end: usize,
    tokens: &'a [Token],
) -> Read<'a, Found>
    ensures { Gives view_found result (spec.decl_at types.now end tokens.now) }
{
    match form_of(tokens) {
        Form::Definitions => definitions_at(alloc, types, tokens),
        Form::Contracted => contracted_at(alloc, types, end, tokens),
        Form::Typedef => typedef_at(alloc, types, tokens),
        Form::Struct => struct_at(alloc, types, tokens),
        Form::Enum => enum_at(alloc, types, tokens),
        Form::Plain => plain_at(alloc, types, end, tokens),
    }
}
