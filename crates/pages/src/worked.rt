// Worked values of the definitions.
ghost use Rattle.pages.specs.Worked.{Worked};

// The code of a supply, the lengths of two pages and the heat bytes of one flag are those worked out by hand.
pub fn worked_pages()
    ensures { Worked }
{}
