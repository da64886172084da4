// Which handles children inherit. On Unix nothing has to be set for it.
ghost use Rattle.std.specs.Prelude.{◌≡◌, Ok};

/// Why the inheritance of handles can't be set. Nothing on Unix answers it.
#[derive(Clone, Copy, Drop)]
pub enum ConfigureHandleInheritanceError {}

/// Sets which handles children inherit, by whether output is not captured. Does nothing on Unix.
pub fn configure_handle_inheritance(no_capture: bool) -> Result<(), ConfigureHandleInheritanceError>
    ensures { result ≡ Ok tt }
{
    let _no_capture = no_capture;
    Ok(())
}
