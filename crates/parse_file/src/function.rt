// Functions (C11 6.7.6.3, 6.9.1; ACSL 2.3).
ghost use Rattle.std.specs.Prelude.{[], ◌≡◌, IfOk};
ghost use Rattle.c_grammar.specs.Annots.{contract_of};
ghost use Rattle.c_grammar.specs.Views.{Gives};
ghost use Rattle.parse_file.specs.Read as spec;
ghost use Rattle.parse_file.specs.Views.{view_ending, view_found, view_header};
ghost use Rattle.c_syntax.specs.View.{view_contract, view_ctype};

use crate::found::{Found, Lines};
use crate::lines::{only, split_params};
use acsl_parser::contract_at;
use c_grammar::{
    Fault, MOST_WITHIN, Read, TypeNames, annot_close_at, annot_open_at, expect, new_name_at,
    punct_at,
};
use c_syntax::{
    AssignsClause, CType, Contract, Decl, Function, Punct, Stmt, StmtNode, Token, VarDecl,
};
use parse_decls::params_at;
use parse_stmts::block_at;
use parse_types::stars_at;
use std::alloc::Global;
use wp_base::{Line, List, NoMemory, Str};

/// The contract of a function that has none.
pub fn no_contract(alloc: Global) -> Contract
    ensures { view_contract result ≡ contract_of [] [] [] }
{
    Contract {
        requires_: List::new(alloc),
        assigns: AssignsClause {
            set: None,
            from: List::new(alloc),
            line: 0,
            place: 0,
        },
        ensures_: List::new(alloc),
        decreases_: None,
        behaviors: List::new(alloc),
        complete: List::new(alloc),
        disjoint: List::new(alloc),
    }
}

/// A contract, in its annotation. `end` is the number of all tokens.
#[tactic(auto, unfolding(crate::specs::Read::contract_part))]
pub fn contract_part<'a>(
    alloc: Global,
    types: &TypeNames,
    end: usize,
    tokens: &'a [Token],
) -> Read<'a, Contract>
    ensures { Gives view_contract result (spec.contract_part types.now end tokens.now) }
{
    let Some((_, inside)) = annot_open_at(tokens) else {
        return Err(Fault::Syntax);
    };
    let (contract, rest) = contract_at(alloc, types, end, inside)?;
    match annot_close_at(rest) {
        Some((_, rest)) => Ok((contract, rest)),
        None => Err(Fault::Syntax),
    }
}

/// What stands before the body of a function, behind its first type.
#[derive(Drop)]
pub struct Header {
    pub name: Str,
    pub result: CType,
    pub params: List<(VarDecl, Line)>,
    pub line: Line,
}

#[tactic(auto, unfolding(crate::specs::Read::header_at))]
fn header_at<'a>(
    alloc: Global,
    types: &TypeNames,
    ty: CType,
    tokens: &'a [Token],
) -> Read<'a, Header>
    ensures { Gives view_header result (spec.header_at types.now (view_ctype ty) tokens.now) }
{
    let (result, rest) = stars_at(alloc, false, ty, tokens)?;
    let ((name, line), rest) = new_name_at(alloc, types, rest)?;
    let (_, rest) = expect(Punct::OpenParen, rest)?;
    let (params, rest) = params_at(alloc, types, MOST_WITHIN, rest)?;
    let (_, rest) = expect(Punct::CloseParen, rest)?;
    let header = Header {
        name,
        result,
        params,
        line,
    };
    Ok((header, rest))
}

/// What a function ends in, and the line of its last token.
#[derive(Drop)]
pub struct Ending {
    pub body: Option<Stmt>,
    pub end: Line,
    pub starts: List<Line>,
}

#[tactic(auto, using(c_syntax::proofs::Equations::stmt_laws), unfolding(crate::specs::Read::ending_at))]
fn ending_at<'a>(
    alloc: Global,
    types: &TypeNames,
    end: usize,
    tokens: &'a [Token],
) -> Read<'a, Ending>
    ensures { Gives view_ending result (spec.ending_at types.now end tokens.now) }
{
    if let Some((line, rest)) = punct_at(Punct::Semicolon, tokens) {
        let ending = Ending {
            body: None,
            end: line,
            starts: List::new(alloc),
        };
        return Ok((ending, rest));
    }
    let (block, rest) = block_at(alloc, types, end, tokens)?;
    let body = Stmt {
        node: StmtNode::Block(block.stmts),
        line: block.line,
    };
    let ending = Ending {
        body: Some(body),
        end: block.end,
        starts: block.starts,
    };
    Ok((ending, rest))
}

// The function of these parts.
fn function_of(
    alloc: Global,
    first: Line,
    contract: Contract,
    header: Header,
    ending: Ending,
) -> Result<Found, NoMemory>
    ensures { IfOk result (λ x. view_found x ≡ spec.function_found first (view_contract contract) (view_header header) (view_ending ending)) }
{
    let (params, lines) = split_params(alloc, header.params)?;
    let function = Function {
        name: header.name,
        result: header.result,
        params,
        contract,
        body: ending.body,
        line: header.line,
        end: ending.end,
    };
    let lines = Lines {
        first,
        params: lines,
        stmts: ending.starts,
    };
    Ok(Found {
        decls: only(alloc, Decl::Function(function))?,
        names: List::new(alloc),
        lines: only(alloc, lines)?,
    })
}

/// A function, behind its contract and its first type, from the line on which it begins.
#[tactic(auto, unfolding(crate::specs::Read::function_at))]
pub fn function_at<'a>(
    alloc: Global,
    types: &TypeNames,
    end: usize,
    first: Line,
    contract: Contract,
    ty: CType,
    tokens: &'a [Token],
) -> Read<'a, Found>
    ensures { Gives view_found result (spec.function_at types.now end first (view_contract contract) (view_ctype ty) tokens.now) }
{
    let (header, rest) = header_at(alloc, types, ty, tokens)?;
    let (ending, rest) = ending_at(alloc, types, end, rest)?;
    Ok((function_of(alloc, first, contract, header, ending)?, rest))
}
