// A sheet cut into its lines.
ghost use Rattle.std.specs.Prelude.{◌≡◌, ◌<◌, ◌≤◌, [], ◌∷◌, length, Some, None};
ghost use Rattle.frames.specs.Lines.{lines, line_end};

// Where the first line of a sheet ends: behind its line feed, or where the sheet ends.
fn line_end(sheet: &[u8]) -> usize
    ensures value { result ≡ line_end sheet.now }
    ensures within { result ≤ length sheet.now }
{
    sheet
        .iter()
        .position(|byte| *byte == b'\n')
        .map_or(sheet.len(), |place| place + 1)
}

// The first line of a sheet, its line feed included, and what follows it; none where the sheet is empty.
#[tactic(auto, using(crate::proofs::Cuts::first_cut, crate::proofs::Cuts::end_after))]
pub fn first_line(sheet: &[u8]) -> Option<(&[u8], &[u8])>
    ensures { elim result [ None ↦ sheet.now ≡ [] | Some v ↦ (lines sheet.now ≡ v.0.now ∷ lines v.1.now) × (length v.1.now < length sheet.now) ] }
{
    if sheet.is_empty() {
        return None;
    }
    Some(sheet.split_at(line_end(sheet)))
}
