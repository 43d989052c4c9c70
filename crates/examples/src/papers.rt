// E1 and E2 with another amount or sequence, also such as no writer writes.
pub(crate) fn body(amount: u64, sequence: u8) -> [u8; 25] {
    let [.., a, b, c, d] = amount.to_be_bytes();
    [
        1, 0, 1, 2, 2, 0, 3, 0, 0, 7, 3, 0, 4, a, b, c, d, 4, 0, 2, 0, sequence, 5, 0, 0,
    ]
}

pub(crate) fn funding(amount: u64) -> [u8; 16] {
    let [.., a, b, c, d] = amount.to_be_bytes();
    [0x30, 0, 2, 0, 1, 0x31, 0, 1, 2, 0x32, 0, 4, a, b, c, d]
}

pub(crate) fn order(amount: u64, sequence: u8) -> [u8; 95] {
    let mut bytes = [0u8; 95];
    bytes[0] = 0x10;
    bytes[2] = 25;
    bytes[3..28].copy_from_slice(&body(amount, sequence));
    bytes[28] = 0x11;
    bytes[30] = 64;
    bytes
}

// Room for four votes, of which the first are those of the voters.
pub(crate) fn certificate(amount: u64, sequence: u8, voters: &[u8]) -> [u8; 300] {
    let mut bytes = [0u8; 300];
    bytes[0] = 0x20;
    bytes[2] = 25;
    bytes[3..28].copy_from_slice(&body(amount, sequence));
    for (vote, voter) in bytes[28..].chunks_exact_mut(68).zip(voters) {
        vote[0] = 0x21;
        vote[2] = 65;
        vote[3] = *voter;
    }
    bytes
}
