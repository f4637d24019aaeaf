//! The example sheet and sheets that differ from it in one thing: a patch, perhaps folded (`a`), is to be mended (`b`).
//! The acts are look, unfold and smooth.

ghost use Rattle.std.specs.Prelude.{◌≡◌};
ghost use Rattle.worked.specs.Patches.{example, half_look, mended, without_look};

/// The example: its counts, the pairs of its sections, the start, the goal, and the acts.
pub fn patch() -> &'static [u8]
    ensures { result.now ≡ example }
{
    b"\x02\x03\
    \x16\0\x08\0\x1e\0\x01\0\x1f\0\x0b\0\x2a\0\x05\0\x2f\0\x06\0\
    \x03\0\0\0\0\0\0\0\
    b\
    \0\0\0\x01a\x01\0\0\x02!a\
    \0\x02\x01\x01a\
    \0\x02\0\x02!a"
}

/// The example where to look is only to see that the patch is folded.
pub fn patch_half_seen() -> &'static [u8]
    ensures { result.now ≡ half_look }
{
    b"\x02\x03\
    \x16\0\x08\0\x1e\0\x01\0\x1f\0\x05\0\x24\0\x05\0\x29\0\x06\0\
    \x03\0\0\0\0\0\0\0\
    b\
    \0\0\0\x01a\
    \0\x02\x01\x01a\
    \0\x02\0\x02!a"
}

/// The example without look.
pub fn patch_unseen() -> &'static [u8]
    ensures { result.now ≡ without_look }
{
    b"\x02\x02\
    \x12\0\x08\0\x1a\0\x01\0\x1b\0\x05\0\x20\0\x06\0\
    \x03\0\0\0\0\0\0\0\
    b\
    \0\x02\x01\x01a\
    \0\x02\0\x02!a"
}

/// A patch that is mended, and no acts.
pub fn patch_mended() -> &'static [u8]
    ensures { result.now ≡ mended }
{
    b"\x02\0\
    \x0a\0\x08\0\x12\0\x01\0\
    \x0c\0\0\0\0\0\0\0\
    b"
}
