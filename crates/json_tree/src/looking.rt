//! Looking into a tree.
ghost use Rattle.std.specs.Prelude.{◌≡◌, option_map};
ghost use Rattle.serde_json.specs.Find.{get};
ghost use Rattle.json_tree.specs.Trees.{view};

use json::Value;

/// The member of an object under a name, the last of several.
pub fn find<'t, 'a>(tree: &'t Value<'a>, name: &str) -> Option<&'t Value<'a>>
    ensures found { option_map (λ member. view member.now) result ≡ get name.now (view tree.now) }
{
    tree.get(name)
}
