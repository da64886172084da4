// Laws of inputs.
ghost use Rattle.run_input.specs.Input.{HasOnlyGoodLines};

/// An input that says a plan and turns has no first bad line, so it is read or refused, and not both.
pub fn an_input_has_no_bad_line()
    ensures { HasOnlyGoodLines }
{}
