// What a sample has.
/// The texts of a sample.
#[derive(Drop)]
pub struct Sample {
    /// The schema with a concept for each node.
    pub schema: Vec<u8>,
    /// The linkbase with an arc from each node to each of its children.
    pub linkbase: Vec<u8>,
    /// The report with a fact for each node, in JSON.
    pub report: Vec<u8>,
}
