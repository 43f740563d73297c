// SHA-256 of four messages at once. Byte i of each content is 5 + 7 * i + i / 256, modulo 256. The digests were worked out with
// another implementation of SHA-256.
ghost use Rattle.std.specs.Prelude.{◌≤◌, length};

use hex::FromHex;
use pp_lanes::digest_four;
use std::test::*;

fn fill(bytes: &mut [u8])
    requires { length bytes.old ≤ 4096 }
{
    for (i, byte) in bytes.iter_mut().enumerate() {
        *byte = ((5 + 7 * i + i / 256) % 256) as u8;
    }
}

// Zeros, where it is no digest's text.
fn digest(text: &str) -> [u8; 32] {
    match <[u8; 32]>::from_hex(text) {
        Ok(bytes) => bytes,
        Err(_) => [0; 32],
    }
}

fn are_digests(found: &[[u8; 32]; 4], texts: [&str; 4]) -> bool {
    found[0] == digest(texts[0])
        && found[1] == digest(texts[1])
        && found[2] == digest(texts[2])
        && found[3] == digest(texts[3])
}

#[test]
fn four_of_one_block(rt: HostRuntime) {
    let mut bytes = [0u8; 256];
    fill(&mut bytes);
    let texts = [
        "386c84f9a0ab5d3d813bf2a33284b397f2987910ff37238662edf431dbe1c80f",
        "0625a4a8e663dd88572f7adb225a7aeaf2da8b4361fc50535194f7bd62b2984c",
        "96ddb6e4113e09f892695a7136c8139dea852700a085f950d1dd9ea13cae56dc",
        "60f31f1ba0688214cbdf49d35c75c4fe634799a3f70757c8859293e55d231ad8",
    ];
    assert!(rt; are_digests(&digest_four(&bytes, 64), texts));
}

#[test]
fn four_of_four_blocks(rt: HostRuntime) {
    let mut bytes = [0u8; 1024];
    fill(&mut bytes);
    let texts = [
        "9e31ff6167e7411e7264ee423a78bcd5e6bda256a10b499b1b6e7f088e0b160b",
        "f23b06ddb9d508b1f254cb43445442a5e998f7c0df19ce2a0d07338a3540a5b0",
        "6c738bd449b82ac4a6403345aade55ef85cd32103862a9d7217ce7b3f01b7fe8",
        "52ea28f63adb1f7bdc1059f8a72a844422b5b13c6d647d8a41e8b86243fcddb6",
    ];
    assert!(rt; are_digests(&digest_four(&bytes, 256), texts));
}

#[test]
fn four_of_no_bytes(rt: HostRuntime) {
    let empty = "e3b0c44298fc1c149afbf4c8996fb92427ae41e4649b934ca495991b7852b855";
    assert!(rt; are_digests(&digest_four(&[], 0), [empty; 4]));
}
