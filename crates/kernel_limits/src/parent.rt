//! After which process a kernel looks.

ghost use Rattle.std.specs.Prelude.{◌≡◌};
ghost use Rattle.kernel_limits.specs.Limits.{looked_after};

/// The number of the process with which a kernel ends. That is its parent, which may be a shell that the named process
/// began. If the named process is gone already, and with it the parent that it was, it is the named one.
pub fn looked_after(parent: u32, named: Option<u32>, is_gone: bool) -> u32
    ensures { result ≡ looked_after parent named is_gone }
{
    match named {
        Some(number) if is_gone => number,
        Some(_) | None => parent,
    }
}
