//! Laws: bytes are read in one way.
ghost use Rattle.http_read.specs.Laws.{NextIsOne, RequestsAreOne};

/// Bytes begin with one request, or have one end.
pub fn bytes_have_one_next()
    ensures { NextIsOne }
{}

/// Bytes are one list of requests and have one end.
pub fn bytes_have_one_reading()
    ensures { RequestsAreOne }
{}
