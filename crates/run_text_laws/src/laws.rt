// Theorems on plain data and its text.
ghost use Rattle.run_text_laws.specs.Objects.{ObjectsHaveFields};
ghost use Rattle.run_text_laws.specs.Plain.{TextsAreRead};

/// The compact text of plain data, if it nests at most as deep as a reader goes, is UTF-8, and a reader of JSON reads
/// it as just that data, which has no float. Plain data has whole numbers of 64 bits, texts that are UTF-8, and in each
/// object each key once, in the order of their bytes.
pub fn texts_are_read()
    ensures { TextsAreRead }
{}

/// An object of fields has at each key the last value that a field has for it, and nothing at any other key. If each
/// field is plain, the object is, and it nests one deeper than its fields do.
pub fn objects_have_fields()
    ensures { ObjectsHaveFields }
{}
