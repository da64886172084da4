// Laws of captured output.
ghost use Rattle.run_capture.specs.Heard.{OutputIsWhatWasHeard};

/// After any pieces, ends and errors each captured stream has its own pieces, joined in order; it has ended where its
/// end or an error came; and the errors are those that came, in order.
pub fn output_is_what_was_heard()
    ensures { OutputIsWhatWasHeard }
{}
