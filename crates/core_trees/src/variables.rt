// Variables of functions.
use wp_base::Layout;

/// A variable of a function: its cells; whether it is a scalar whose address is never taken, so that no pointer leads to it; and
/// whether it is a parameter or is declared with a value.
#[derive(Drop)]
pub struct FunctionVariable {
    pub layout: Layout,
    pub is_plain: bool,
    pub has_value: bool,
}
