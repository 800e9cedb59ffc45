//! Laws of the definitions, for the proofs of crates above.
ghost use Rattle.rec_sheet.specs.Sheets.{PlacesAreWritten, OneSheet};

/// What is written, with any seal, is a sheet, and nothing else is; and it is the sheet of one list of entries alone.
pub fn sheet_law()
    ensures places { PlacesAreWritten }
    ensures one { OneSheet }
{}
