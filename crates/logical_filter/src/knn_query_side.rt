// The query side of a logical filter's first KNN call. A port of `find_knn_query_side` of
// rust/sedona-query-planner/src/spatial_expr_utils.rs; the case of letters is ignored.
ghost use Rattle.std.specs.Prelude.{◌≡◌};
ghost use Rattle.definitions.specs.Words.Expression.{no_side};
ghost use Rattle.definitions.specs.Bytes.Encode.{side_number};
ghost use Rattle.definitions.specs.Filter.Names.{bits_of, query_side_from};
ghost use Rattle.filter_tree.specs.Trees.{TreeNode, OfTreeNode};
ghost use Rattle.logical_filter.specs.QuerySides.{Knn, OfKnn, SchemasAre, query_side_is};

use filter_tree::tree::Tree;

// Whether all columns are in the left schema, and in the right one.
#[derive(Clone, Copy)]
pub struct Schemas {
    pub left: bool,
    pub right: bool,
}

// The schemas that have all columns of the expression of an index.
fn column_refs(tree: Tree, i: usize) -> Schemas
    requires { TreeNode tree.bytes.now tree.nodes.now i }
    ensures { OfTreeNode tree.entry.bytes.now tree.entry.nodes.now i
        (λ t. SchemasAre (bits_of t) result) }
{
    let mut bits: u8 = 3;
    for place in tree.fields(i) {
        bits &= tree.bytes[place + 1];
    }
    Schemas {
        left: bits % 2 == 1,
        right: bits / 2 == 1,
    }
}

// The side of a KNN join whose plan has the query geometry, by its number in an answer. The Rust has this enum beside `JoinSide`, and what
// it names has its names here.
#[derive(Clone, Copy, Debug, PartialEq, Eq)]
pub enum KNNJoinQuerySide {
    Left = 0,
    Right = 1,
    None = 2,
}

// The number of a query side in an answer.
impl From<KNNJoinQuerySide> for u8 {
    ghost from_gives = { λ side number. number ≡ side_number (query_side_is side) };

    #[tactic(auto, unfolding(definitions::specs::Bytes::Encode::side_number))]
    fn from(side: KNNJoinQuerySide) -> u8 {
        side as u8
    }
}

// The side of the first argument of the first `st_knn`, whose index is known, if its columns are of one schema.
pub fn find_knn_query_side(tree: Tree, knn: Option<usize>) -> KNNJoinQuerySide
    requires { Knn tree.bytes.now tree.nodes.now knn }
    ensures { OfKnn tree.entry.bytes.now tree.entry.nodes.now knn
        (λ q. query_side_is result ≡ query_side_from q no_side) }
{
    let Some(i) = knn else {
        return KNNJoinQuerySide::None;
    };
    let first = i + 1;
    if tree.after(i) == first {
        return KNNJoinQuerySide::None;
    }
    let columns = column_refs(tree, first);
    match (columns.left, columns.right) {
        (true, false) => KNNJoinQuerySide::Left,
        (false, true) => KNNJoinQuerySide::Right,
        _ => KNNJoinQuerySide::None,
    }
}
