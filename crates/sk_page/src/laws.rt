//! Laws of the bytes of a page. Each function has one as its contract, and does nothing.

ghost use Rattle.sk_page.specs.Laws.{PageHasItsSize, PageIsReadBack};

/// A page is spelled in 4,096 bytes.
pub fn page_has_its_size()
    ensures { PageHasItsSize }
{}

/// From its bytes a page is read as it was.
pub fn page_is_read_back()
    ensures { PageIsReadBack }
{}
