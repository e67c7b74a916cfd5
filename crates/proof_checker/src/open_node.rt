use vernacular_tree::Node;

/// A node of a script with gaps, in preorder: a rule application, or a gap with the number that
/// stands behind it in the script.
#[derive(Debug, Drop)]
pub enum OpenNode {
    Rule(Node),
    Gap { within: u32 },
}
