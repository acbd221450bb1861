//! What the program shows of an attribute's value.
ghost use Rattle.worked_rows.specs.ShownValues.{ShownValues};

/// Values of the encodings `b` and `b64` are shown where they are well formed, and are bad where they are not.
pub fn shown_values()
    ensures { ShownValues }
{}
