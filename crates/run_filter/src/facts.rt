// What a filter may ask of a test.
ghost use Rattle.std.specs.Prelude.{◌≡◌};
ghost use Rattle.run_filter.specs.Holds.{fact_of};

/// A test, as filters see it.
#[derive(Clone, Copy)]
pub struct Facts<'a> {
    pub test: &'a str,
    pub package: &'a str,
    pub binary: &'a str,
    pub binary_id: &'a str,
    pub kind: &'a str,
    pub platform: &'a str,
    pub group: &'a str,
    /// Whether the profile's default filter holds of it.
    pub in_default: bool,
}

/// What a predicate asks for.
#[derive(Clone, Copy, Drop)]
pub enum Subject {
    /// The name of the test.
    Test,
    Package,
    Binary,
    BinaryId,
    Kind,
    Platform,
    Group,
}

impl<'a> Facts<'a> {
    /// What the test is called under a subject.
    pub(crate) fn get(&self, subject: Subject) -> &'a str
        ensures { result.now ≡ fact_of subject self.now }
    {
        match subject {
            Subject::Test => self.test,
            Subject::Package => self.package,
            Subject::Binary => self.binary,
            Subject::BinaryId => self.binary_id,
            Subject::Kind => self.kind,
            Subject::Platform => self.platform,
            Subject::Group => self.group,
        }
    }
}
