// The verdicts of all AND-leaves.
ghost use Rattle.terms.specs.Settings.{settings_of};
ghost use Rattle.leaf_verdicts.specs.Walks.{VerdictsFit, VerdictsPut};

use super::asked::Asked;
use super::leaf::leaf_verdict;
use filter_tree::spine::Spine;
use filter_tree::tree::Tree;
use leaf_matching::filter::Filter;
use terms::settings::Settings;

// Writes a byte for each AND-leaf of the expression that has the first records, and gives how many they are.
pub fn put_verdicts(out: &mut [u8], tree: Tree, rec: usize, settings: Settings) -> usize
    requires { VerdictsFit tree.bytes.now rec tree.nodes.now out.old }
    ensures { VerdictsPut (settings_of settings) tree.entry.bytes.now rec tree.entry.nodes.now
        out.old out.new result }
{
    let asked = Asked {
        filter: Filter { tree, rec },
        settings,
    };
    let mut count = 0;
    for index in Spine::of(tree, 0) {
        if let Some(verdict) = leaf_verdict(asked, index) {
            out[count] = u8::from(verdict);
            count += 1;
        }
    }
    count
}
