// What programs ask of a table before they search it.
ghost use Rattle.std.specs.Prelude.{◌≡◌, IfOk, MatchResult};
ghost use Rattle.table.specs.Answers.{malformed_number};
ghost use Rattle.wellformed.specs.WellFormed.{refusal};
ghost use Rattle.rows.specs.Readable.{SoundRows};

use table::layout::{Layout, layout_of};
use table::refusal::Malformed;
use wellformed::check::check_table;

// The layout of a well-formed table, or the table's first refusal.
pub fn sound_layout(text: &[u8], words: &[u32]) -> Result<Layout, Malformed>
    ensures sound { IfOk result (SoundRows words.now) }
    ensures verdict { MatchResult result (λ l. refusal text.now words.now ≡ 0) (λ malformed. refusal text.now words.now ≡ malformed_number malformed) }
{
    check_table(text, words)?;
    Ok(layout_of(words))
}
