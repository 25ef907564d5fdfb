// A typed expression, told by its type: whether it is an object or a value, and the number of a constant.

use c_operands::{Operand, number_of};
use test_lines::Page;
use typed_prog::{Base, CoreType, Value};
use wp_base::Kind;

fn kind_name(kind: Kind) -> &'static str {
    match kind {
        Kind::Bool => "_Bool",
        Kind::Char => "char",
        Kind::SChar => "signed char",
        Kind::UChar => "unsigned char",
        Kind::Short => "short",
        Kind::UShort => "unsigned short",
        Kind::Int => "int",
        Kind::UInt => "unsigned",
        Kind::Long => "long",
        Kind::ULong => "unsigned long",
        Kind::LLong => "long long",
        Kind::ULLong => "unsigned long long",
    }
}

// The stars stand behind the root, the innermost first.
fn tell_type(page: &mut Page, ty: &CoreType) {
    match ty.base {
        Base::Void => page.put("void"),
        Base::Of(kind) => page.put(kind_name(kind)),
        Base::Struct(_) => page.put("struct s"),
    }
    for is_const in ty.stars.as_slice().iter().rev() {
        if *is_const {
            page.put(" const");
        }
        page.put(" *");
    }
    if let Some(count) = ty.count {
        page.put(" [");
        page.put_number(count);
        page.put("]");
    }
}

/// The type of a value, and its number where it is a constant.
pub fn tell_value(page: &mut Page, value: &Value) {
    tell_type(page, &value.ty);
    if let Some(number) = number_of(value) {
        page.put(" ");
        page.put_number(number);
    }
}

/// The operand: `object`, `constant object`, `value`, or `constant` with its number where that is known.
pub fn tell_operand(page: &mut Page, operand: &Operand) {
    match operand {
        Operand::Object(place, is_const) => {
            page.put(if *is_const {
                "constant object "
            } else {
                "object "
            });
            tell_type(page, &place.ty);
        }
        Operand::Value(value, is_constant) => {
            page.put(if *is_constant { "constant " } else { "value " });
            tell_value(page, value);
        }
    }
}
