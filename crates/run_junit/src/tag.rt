// The names of elements and of attributes.
ghost use Rattle.std.specs.Prelude.{◌≡◌};
ghost use Rattle.run_junit.specs.Tokens.{key_name, tag_name};

/// An element.
#[derive(Clone, Copy, Drop)]
pub(crate) enum Tag {
    TestSuites,
    TestSuite,
    TestCase,
    Properties,
    Property,
    Failure,
    Error,
    FlakyFailure,
    FlakyError,
    RerunFailure,
    RerunError,
    SystemOut,
    SystemErr,
}

impl Tag {
    /// Its name.
    pub(crate) fn name(self) -> &'static str
        ensures { result.now ≡ tag_name self }
    {
        match self {
            Tag::TestSuites => "testsuites",
            Tag::TestSuite => "testsuite",
            Tag::TestCase => "testcase",
            Tag::Properties => "properties",
            Tag::Property => "property",
            Tag::Failure => "failure",
            Tag::Error => "error",
            Tag::FlakyFailure => "flakyFailure",
            Tag::FlakyError => "flakyError",
            Tag::RerunFailure => "rerunFailure",
            Tag::RerunError => "rerunError",
            Tag::SystemOut => "system-out",
            Tag::SystemErr => "system-err",
        }
    }
}

/// An attribute of an element.
#[derive(Clone, Copy, Drop)]
pub(crate) enum Key {
    Name,
    ClassName,
    Tests,
    Failures,
    Errors,
    Disabled,
    Uuid,
    Timestamp,
    Time,
    Message,
    Type,
    Value,
}

impl Key {
    /// Its name.
    pub(crate) fn name(self) -> &'static str
        ensures { result.now ≡ key_name self }
    {
        match self {
            Key::Name => "name",
            Key::ClassName => "classname",
            Key::Tests => "tests",
            Key::Failures => "failures",
            Key::Errors => "errors",
            Key::Disabled => "disabled",
            Key::Uuid => "uuid",
            Key::Timestamp => "timestamp",
            Key::Time => "time",
            Key::Message => "message",
            Key::Type => "type",
            Key::Value => "value",
        }
    }
}
