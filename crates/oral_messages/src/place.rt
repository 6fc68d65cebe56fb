//! The place of a path among all paths of as many members.
ghost use Rattle.std.specs.Prelude.{◌≡◌, ◌≤◌, IsTrue, slice_get, Some};
ghost use Rattle.guards_model.specs.OralMessages.{paths};
ghost use Rattle.oral_messages.specs.Ranks.{is_path, rank as place_of};
ghost use Rattle.oral_messages.specs.Paths.{path_of};

use crate::members::Members;
use crate::words::Path;
use guards_base::ChanSet;

/// The place of the path among all paths of as many distinct active labels in ascending order.
pub fn rank(active: ChanSet, path: &Path) -> u16
    requires low { 1 ≤ path.now.count }
    requires high { path.now.count ≤ 3 }
    requires path { IsTrue (is_path active (path_of path.now)) }
    ensures place { slice_get (paths active path.now.count) result ≡ Some (path_of path.now) }
    ensures value { result ≡ place_of active (path_of path.now) }
{
    let members = Members::of(active);
    let [a, b, c] = path.at;
    if path.count == 1 {
        members.first(a) as u16
    } else if path.count == 2 {
        members.second(a, b) as u16
    } else {
        members.third(a, b, c) as u16
    }
}
