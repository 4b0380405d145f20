// The call extract with a lent table of nodes. Public for the crate `host_calls`.
ghost use Rattle.terms.specs.Settings.{settings_of};
ghost use Rattle.call_extract.specs.ExtractByTable.{ByTable};
ghost use Rattle.node_table.specs.Records.{nodes_of};

use super::call::extract_settled;
use call_answers::answers::Extracted;
use node_table::NodeRecord;
use terms::settings::Settings;

// A frame that is held must have the table's first records.
pub fn extract_by_table(
    plan: &mut [u8],
    n: usize,
    scratch: &mut [u8],
    table: &[NodeRecord],
    settings: Settings,
) -> Extracted
    ensures { ByTable (settings_of settings) n plan.old scratch.old (nodes_of table.now) plan.new scratch.new result }
{
    extract_settled(plan, n, scratch, Some(table), settings)
}
