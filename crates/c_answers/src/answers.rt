// Faults as they leave a function.
ghost use Rattle.std.specs.Prelude.{◌≡◌};
ghost use Rattle.wp_base.specs.declared.answers.Stop.TheVariants as stop;
ghost use Rattle.c_answers.specs.Answers.{fault};

use wp_base::{Line, Refusal, Rule, Stop};

/// The end of typing at a fault: the rule that is broken, and the line.
pub fn refused(rule: Rule, line: Line) -> Stop
    ensures { result ≡ stop.Refused (fault rule line) }
{
    Stop::Refused(Refusal { rule, line })
}
