// Declarations, printed.

use crate::annots::write_contract;
use crate::exprs::{write_type, write_var, write_vars};
use crate::preds::write_pred;
use crate::stmts::write_stmt;
use crate::terms::write_term;
use c_syntax::{Decl, Function, LogicBody, LogicDecl, VarDecl};
use test_lines::Page;

fn write_params(page: &mut Page, params: &[VarDecl]) {
    page.open("params", 1);
    write_vars(page, params);
    page.close();
}

fn write_function(page: &mut Page, function: &Function) {
    page.open("function", function.line);
    page.put_name(function.name.bytes());
    write_type(page, &function.result);
    write_params(page, function.params.as_slice());
    write_contract(page, &function.contract);
    match &function.body {
        Some(body) => write_stmt(page, body),
        None => page.put(" none"),
    }
    if function.end != 1 {
        page.put(" end ");
        page.put_number(function.end);
    }
    page.close();
}

pub fn write_logic(page: &mut Page, logic: &LogicDecl) {
    let head = match &logic.result {
        Some(_) => "logic",
        None => "predicate",
    };
    page.open(head, logic.line);
    page.put_name(logic.name.bytes());
    if let Some(of) = &logic.result {
        write_type(page, of);
    }
    write_params(page, logic.params.as_slice());
    match &logic.body {
        LogicBody::Term(term) => write_term(page, term),
        LogicBody::Pred(pred) => write_pred(page, pred),
    }
    page.close();
}

fn write_decl(page: &mut Page, decl: &Decl) {
    match decl {
        Decl::Struct(tagged) => {
            page.open("struct", tagged.line);
            page.put_name(tagged.name.bytes());
            write_vars(page, tagged.fields.as_slice());
            page.close();
        }
        Decl::Enum(tagged) => {
            page.open("enum", tagged.line);
            match &tagged.name {
                Some(name) => page.put_name(name.bytes()),
                None => page.put(" none"),
            }
            write_vars(page, tagged.items.as_slice());
            page.close();
        }
        Decl::Typedef(var) => {
            page.open("typedef", 1);
            write_var(page, var);
            page.close();
        }
        Decl::Globals(vars) => {
            page.open("globals", 1);
            write_vars(page, vars.as_slice());
            page.close();
        }
        Decl::Function(function) => write_function(page, function),
        Decl::Logic(logic) => write_logic(page, logic),
    }
}

pub fn write_decls(page: &mut Page, decls: &[Decl]) {
    for decl in decls {
        write_decl(page, decl);
    }
}
