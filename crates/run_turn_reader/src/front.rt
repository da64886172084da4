// The front of some bytes.
ghost use Rattle.std.specs.Prelude.{◌≡◌, ◌++◌, IfSome, IsTrue};

/// What stands behind this front, if bytes begin with it.
pub(crate) fn after<'a>(bytes: &'a [u8], front: &[u8]) -> Option<&'a [u8]>
    ensures { IfSome result (λ rest. bytes.now ≡ front.now ++ rest.now) }
{
    if bytes.len() < front.len() {
        return None;
    }
    let (head, rest) = bytes.split_at(front.len());
    if head == front { Some(rest) } else { None }
}

/// Whether bytes are these.
pub(crate) fn are(bytes: &[u8], these: &[u8]) -> bool
    ensures { IsTrue result → bytes.now ≡ these.now }
{
    bytes == these
}
