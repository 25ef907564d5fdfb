// What is so of settings whose functions pass the tests.
ghost use Rattle.regular_settings.specs.Shapes.{ShapedIsRegular};

/// They are regular where the bodies of their functions are terms for integers.
pub fn shaped_is_regular()
    ensures { ShapedIsRegular }
{}
