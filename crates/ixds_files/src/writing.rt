//! Writing all of a piece.
ghost use Rattle.std.specs.Prelude.{OnOk};
ghost use Rattle.std.specs.Io.KnownBytes.{Appends};
ghost use Rattle.ixds_files.specs.Writers.{AppendsFront};

use crate::cause::Cause;
use std::io;
use std::io::Write;

/// Writes a piece, all of it or a front. A writer that takes nothing of what is left fails, and one that was interrupted is
/// called again.
pub fn put_all<W: Write>(writer: &mut W, piece: &[u8]) -> Result<(), Cause>
    ensures whole { OnOk result (Appends (W.contents writer.old) (W.contents writer.new) piece.now) }
    ensures front { AppendsFront (W.contents writer.old) (W.contents writer.new) piece.now }
{
    let mut rest = piece;
    'tries: for _ in 0..u64::MAX {
        if rest.is_empty() {
            return Ok(());
        }
        match writer.write(rest) {
            Ok(0) => return Err(Cause::Other),
            Ok(n) => rest = &rest[n..],
            Err(error) if error.kind() == io::ErrorKind::Interrupted => {}
            Err(error) => return Err(Cause::from(error)),
        }
    }
    Err(Cause::Other)
}
