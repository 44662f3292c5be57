//! The note on a refused text that begins as a model file.

ghost use Rattle.command_line.specs.KeptDevices.{text_of};
ghost use Rattle.command_line.specs.ModelNotes.{NotesModel};

use crate::kept_devices::{HeardOutput, KeptInput};
use file_kinds::is_model_file;
use outcome_trace::{Status, TextOut, write_text};

/// What the note says.
pub(crate) const MODEL_NOTE: &str =
    "this looks like a model file: `fiber_cli test FILE` tests it, and `fiber_cli terms FILE` prints its terms\n";

/// Writes a note if a text was refused that begins as a model file, and no write to this output has failed.
pub(crate) fn note_model<I, E: TextOut>(
    status: Status,
    input: &KeptInput<I>,
    err: &mut HeardOutput<E>,
)
    ensures { NotesModel status (text_of input.now) (E.seen err.old.inner) (E.seen err.new.inner) }
{
    if matches!(status, Status::Refused) && is_model_file(input.text()) && !err.has_failed() {
        let _ = write_text(MODEL_NOTE.as_bytes(), err);
    }
}
