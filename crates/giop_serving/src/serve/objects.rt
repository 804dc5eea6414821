//! The objects that are served. Which of them a target asks for is `object_for` in
//! specs/Serve/Objects.antt: change both.
ghost use Rattle.std.specs.Prelude.{◌≡◌, map, option_map};
ghost use Rattle.giop_serving.specs.Serve.Objects.{object_at, object_for, object_of};

use crate::serve::given::ServedObject;
use giop_msg::Target;

/// The object that a target asks for by its key, where it is one of these.
pub fn object_for<'a>(objects: &[ServedObject<'a>], target: &Target) -> Option<ServedObject<'a>>
    ensures { option_map object_of result ≡ object_for (map object_of objects.now) target.now }
{
    match target {
        Target::Key(key) => object_at(objects, key.as_slice()),
        Target::Profile(_) => None,
        Target::Reference { .. } => None,
    }
}

/// The first object of a key.
#[tactic(auto, using(crate::proofs::OnServe::ObjectLemmas::object_passed, crate::proofs::OnServe::ObjectLemmas::object_found, crate::proofs::OnServe::ObjectLemmas::object_absent))]
pub fn object_at<'a>(objects: &[ServedObject<'a>], key: &[u8]) -> Option<ServedObject<'a>>
    ensures { option_map object_of result ≡ object_at (map object_of objects.now) key.now }
{
    for object in objects {
        if key == object.key {
            return Some(*object);
        }
    }
    None
}
