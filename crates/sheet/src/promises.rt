// What is promised of sheets. The contract of each function here is a theorem, and the function does nothing else.
ghost use Rattle.sheet.specs.Statements.{Size, AlwaysWritable, KindReadAgain, RowReadAgain, FirstListable, FileReadAgain};

// A sheet is no longer than 16 bytes for each kind, and six for each kind and member.
pub fn size()
    ensures { Size }
{}

// A kind can be written where there is room for so many.
pub fn always_writable()
    ensures { AlwaysWritable }
{}

// What was written of a kind is read again.
pub fn kind_read_again()
    ensures { KindReadAgain }
{}

// And the members of a row.
pub fn row_read_again()
    ensures { RowReadAgain }
{}

// Those of a kind's entries that are listed.
pub fn first_listable()
    ensures { FirstListable }
{}

// A file of entries is read again as it was written.
pub fn file_read_again()
    ensures { FileReadAgain }
{}
