//! Whether etags rise.
ghost use Rattle.std.specs.Prelude.{◌↔◌, IsTrue, None};
ghost use Rattle.spec_data.specs.Kept.{EtagsRise};

use crate::keeper::KeptRow;

/// Whether the etags of these rows rise, so that a keeper may hold them.
pub fn etags_rise(rows: &[KeptRow]) -> bool
    ensures { IsTrue result ↔ EtagsRise None rows.now }
{
    let mut last: Option<u64> = None;
    for row in rows {
        if last.is_some_and(|etag| row.etag <= etag) {
            return false;
        }
        last = Some(row.etag);
    }
    true
}
