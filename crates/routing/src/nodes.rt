use address::PointCode;

// A station's place in its network: its own code, and what it is told of the network.
#[derive(Drop)]
pub struct Node<'n, N> {
    pub code: PointCode,
    pub network: &'n N,
}
