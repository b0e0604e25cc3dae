// Paper 01's "Rules per algorithm" and the tests of a configuration and of shares. Each rule is its table, an arm for each row; the service picks
// the table, so that a request is asked for one service's rows and not for all four.
#![tactic(auto)]

ghost use Rattle.std.specs.Prelude.{◌≡◌, true, false, ◌+◌, ◌-◌, ◌^◌, eqb, ltb};
ghost use Rattle.rules.specs.Masks.{masks_ok};
ghost use Rattle.model.specs.Lens.{and_allowed, or_in, ruled};
ghost use Rattle.model.specs.Algorithm.{ciphers, hashes, macs, aeads, aes, cipher_keys, cipher_ivs, cipher_sources};
ghost use Rattle.model.specs.Algorithm.{hash_results, mac_keys, cmac_results, aead_keys, aead_ivs, aead_tags};
ghost use Rattle.model.specs.Algorithm.{known, key_ok, result_ok, iv_ok, source_ok, decrypted_ok, written_ok, payload, payload_ok};
ghost use Rattle.model.specs.Session.{bit, mask_of, offers, direction_ok, key_limit, lengths_ok, accepts};
ghost use Rattle.model.specs.Setup.{config_ok, shares_ok};

// Document 001's numbers of the algorithms, VIRTIO_CRYPTO_CIPHER_AES_ECB and so on; 3DES_CBC is TDES_CBC here, and a MAC's first six are a hash's.
const AES_ECB: u32 = 2;

const AES_CBC: u32 = 3;

const AES_CTR: u32 = 4;

const TDES_CBC: u32 = 8;

const AES_XTS: u32 = 13;

const MD5: u32 = 1;

const SHA1: u32 = 2;

const SHA_224: u32 = 3;

const SHA_256: u32 = 4;

const SHA_384: u32 = 5;

const SHA_512: u32 = 6;

const CMAC_AES: u32 = 26;

const GCM: u32 = 1;

const CCM: u32 = 2;

const CHACHA20_POLY1305: u32 = 3;

// The masks of all services, and of each service's algorithms: none has a number from 32 on.
const SERVICES: u32 = 1 << model::CIPHER | 1 << model::HASH | 1 << model::MAC | 1 << model::AEAD;

const CIPHERS: u32 = 1 << AES_ECB | 1 << AES_CBC | 1 << AES_CTR | 1 << TDES_CBC | 1 << AES_XTS;

const HASHES: u32 = 1 << MD5
    | 1 << SHA1
    | 1 << SHA_224
    | 1 << SHA_256
    | 1 << SHA_384
    | 1 << SHA_512;

const MACS: u32 = HASHES | 1 << CMAC_AES;

const AEADS: u32 = 1 << GCM | 1 << CCM | 1 << CHACHA20_POLY1305;

// The largest max_size.
const SIZE_LIMIT: u64 = 1 << 20;

// An AES key of n bytes.
fn is_aes_key(n: u32) -> bool
    ensures { result ≡ and_allowed true aes n }
{
    matches!(n, 16 | 24 | 32)
}

// A cipher key of n bytes.
fn cipher_key(algo: u32, n: u32) -> bool
    ensures { result ≡ ruled cipher_keys algo n }
{
    match algo {
        AES_ECB | AES_CBC | AES_CTR => is_aes_key(n),
        TDES_CBC => n == 24,
        AES_XTS => matches!(n, 32 | 64),
        _ => false,
    }
}

// A cipher IV of n bytes.
fn cipher_iv(algo: u32, n: u32) -> bool
    ensures { result ≡ ruled cipher_ivs algo n }
{
    match algo {
        AES_ECB => n == 0,
        AES_CBC | AES_CTR | AES_XTS => n == 16,
        TDES_CBC => n == 8,
        _ => false,
    }
}

// A cipher source of n bytes.
fn cipher_source(algo: u32, n: u32) -> bool
    ensures { result ≡ ruled cipher_sources algo n }
{
    match algo {
        AES_ECB | AES_CBC => n % 16 == 0,
        AES_CTR => true,
        TDES_CBC => n % 8 == 0,
        AES_XTS => 16 <= n,
        _ => false,
    }
}

// A hash result, or that of a MAC over a hash, of n bytes.
fn hash_result(algo: u32, n: u32) -> bool
    ensures { result ≡ ruled hash_results algo n }
{
    match algo {
        MD5 => matches!(n, 1..=16),
        SHA1 => matches!(n, 1..=20),
        SHA_224 => matches!(n, 1..=28),
        SHA_256 => matches!(n, 1..=32),
        SHA_384 => matches!(n, 1..=48),
        SHA_512 => matches!(n, 1..=64),
        _ => false,
    }
}

// A MAC key of n bytes.
fn mac_key(algo: u32, n: u32) -> bool
    ensures { result ≡ ruled mac_keys algo n }
{
    match algo {
        MD5..=SHA_512 => matches!(n, 1..=64),
        CMAC_AES => is_aes_key(n),
        _ => false,
    }
}

// The result of a MAC over a cipher of n bytes.
fn cmac_result(algo: u32, n: u32) -> bool
    ensures { result ≡ ruled cmac_results algo n }
{
    algo == CMAC_AES && matches!(n, 1..=16)
}

// An AEAD key of n bytes.
fn aead_key(algo: u32, n: u32) -> bool
    ensures { result ≡ ruled aead_keys algo n }
{
    match algo {
        GCM | CCM => is_aes_key(n),
        CHACHA20_POLY1305 => n == 32,
        _ => false,
    }
}

// An AEAD IV of n bytes.
fn aead_iv(algo: u32, n: u32) -> bool
    ensures { result ≡ ruled aead_ivs algo n }
{
    match algo {
        GCM | CHACHA20_POLY1305 => n == 12,
        CCM => matches!(n, 7..=13),
        _ => false,
    }
}

// An AEAD tag of n bytes.
fn aead_tag(algo: u32, n: u32) -> bool
    ensures { result ≡ ruled aead_tags algo n }
{
    match algo {
        GCM => matches!(n, 4 | 8 | 12..=16),
        CCM => matches!(n, 4 | 6 | 8 | 10 | 12 | 14 | 16),
        CHACHA20_POLY1305 => n == 16,
        _ => false,
    }
}

// The ciphers of the rules.
fn is_cipher(algo: u32) -> bool
    ensures { result ≡ or_in false algo ciphers }
{
    matches!(algo, AES_ECB | AES_CBC | AES_CTR | TDES_CBC | AES_XTS)
}

// The hashes of the rules.
fn is_hash(algo: u32) -> bool
    ensures { result ≡ or_in false algo hashes }
{
    matches!(algo, MD5..=SHA_512)
}

// The MACs of the rules.
fn is_mac(algo: u32) -> bool
    ensures { result ≡ or_in false algo macs }
{
    matches!(algo, MD5..=SHA_512 | CMAC_AES)
}

// The AEADs of the rules.
fn is_aead(algo: u32) -> bool
    ensures { result ≡ or_in false algo aeads }
{
    matches!(algo, GCM | CCM | CHACHA20_POLY1305)
}

// The algorithm stands in the rules.
#[tactic(auto, unfolding(model::specs::Algorithm::known))]
fn is_known(service: u32, algo: u32) -> bool
    ensures { result ≡ known service algo }
{
    match service {
        model::CIPHER => is_cipher(algo),
        model::HASH => is_hash(algo),
        model::MAC => is_mac(algo),
        model::AEAD => is_aead(algo),
        _ => false,
    }
}

// A key of n bytes; a hash has none to look at.
#[tactic(auto, unfolding(model::specs::Algorithm::key_ok))]
fn key_ok(service: u32, algo: u32, n: u32) -> bool
    ensures { result ≡ key_ok service algo n }
{
    match service {
        model::CIPHER => cipher_key(algo, n),
        model::HASH => true,
        model::MAC => mac_key(algo, n),
        model::AEAD => aead_key(algo, n),
        _ => false,
    }
}

// A hash or MAC result, or an AEAD tag, of n bytes; a cipher has none to look at.
#[tactic(auto, unfolding(model::specs::Algorithm::result_ok))]
fn result_ok(service: u32, algo: u32, n: u32) -> bool
    ensures { result ≡ result_ok service algo n }
{
    match service {
        model::CIPHER => true,
        model::HASH => hash_result(algo, n),
        model::MAC => hash_result(algo, n) || cmac_result(algo, n),
        model::AEAD => aead_tag(algo, n),
        _ => false,
    }
}

// An IV of n bytes; only cipher and AEAD have a rule.
#[tactic(auto, unfolding(model::specs::Algorithm::iv_ok))]
pub fn iv_ok(service: u32, algo: u32, n: u32) -> bool
    ensures { result ≡ iv_ok service algo n }
{
    match service {
        model::CIPHER => cipher_iv(algo, n),
        model::HASH | model::MAC => true,
        model::AEAD => aead_iv(algo, n),
        _ => false,
    }
}

// A source of n bytes; only a cipher has a rule.
#[tactic(auto, unfolding(model::specs::Algorithm::source_ok))]
pub fn source_ok(service: u32, algo: u32, n: u32) -> bool
    ensures { result ≡ source_ok service algo n }
{
    match service {
        model::CIPHER => cipher_source(algo, n),
        model::HASH | model::MAC | model::AEAD => true,
        _ => false,
    }
}

// An AEAD encryption: the destination is ciphertext followed by tag; a sum past 32 bits is no destination's length.
fn encrypted_ok(n: model::Lengths) -> bool
    ensures { result ≡ eqb n.written (n.source + n.result) }
{
    n.source.checked_add(n.result) == Some(n.written)
}

// An AEAD decryption: the source is ciphertext followed by tag.
#[tactic(auto, unfolding(model::specs::Algorithm::decrypted_ok))]
fn decrypted_ok(n: model::Lengths) -> bool
    ensures { result ≡ decrypted_ok n }
{
    n.source.checked_sub(n.result) == Some(n.written)
}

// What is written before the status.
#[tactic(auto, unfolding(model::specs::Algorithm::written_ok))]
pub fn written_ok(service: u32, direction: u32, n: model::Lengths) -> bool
    ensures { result ≡ written_ok service direction n }
{
    match (service, direction) {
        (model::CIPHER, _) => n.written == n.source,
        (model::HASH | model::MAC, _) => n.written == n.result,
        (model::AEAD, model::ENCRYPT) => encrypted_ok(n),
        (model::AEAD, model::DECRYPT) => decrypted_ok(n),
        _ => false,
    }
}

// CCM: a payload of n bytes is below 256 to the power (15 minus IV length). IVs up to 11 allow every 32-bit length; the rule on IVs refuses those above 13.
fn ccm_payload(iv: u32, n: u32) -> bool
    ensures { result ≡ ltb n (256 ^ (15 - iv)) }
{
    match iv {
        0..=11 => true,
        12 => n < 16777216,
        13 => n < 65536,
        14 => n < 256,
        _ => n < 1,
    }
}

// The payload of an AEAD: the source when encrypting, the destination when decrypting.
fn payload(direction: u32, n: model::Lengths) -> u32
    ensures { result ≡ payload direction n }
{
    match direction {
        model::ENCRYPT => n.source,
        _ => n.written,
    }
}

// The payload's length; only CCM has a rule.
#[tactic(auto, unfolding(model::specs::Algorithm::payload_ok))]
pub fn payload_ok(service: u32, algo: u32, direction: u32, n: model::Lengths) -> bool
    ensures { result ≡ payload_ok service algo direction n }
{
    match (service, algo) {
        (model::AEAD, CCM) => ccm_payload(n.iv, payload(direction, n)),
        _ => true,
    }
}

// Bit n of a mask.
#[tactic(auto, using(std::proofs::lemmas::Nat::and_mask, laws::specs::Bits::bit_past), unfolding(model::specs::Session::bit))]
pub fn has_bit(mask: u32, n: u32) -> bool
    ensures { result ≡ bit mask n }
{
    n < 32 && (mask >> n) & 1 == 1
}

// The mask of a service's algorithms.
fn mask_of(k: model::Config, service: u32) -> u32
    ensures { result ≡ mask_of k service }
{
    match service {
        model::CIPHER => k.ciphers,
        model::HASH => k.hashes,
        model::MAC => k.macs,
        _ => k.aeads,
    }
}

// The algorithm stands in the rules, and its bit and its service's bit are set.
#[tactic(auto, unfolding(model::specs::Session::offers))]
pub fn is_offered(k: model::Config, service: u32, algo: u32) -> bool
    ensures { result ≡ offers k service algo }
{
    is_known(service, algo) && has_bit(k.services, service) && has_bit(mask_of(k, service), algo)
}

// A cipher or AEAD encrypts or decrypts.
#[tactic(auto, unfolding(model::specs::Session::direction_ok))]
pub fn direction_ok(x: model::Session) -> bool
    ensures { result ≡ direction_ok x }
{
    match x.service {
        model::CIPHER | model::AEAD => matches!(x.direction, model::ENCRYPT | model::DECRYPT),
        _ => true,
    }
}

// The configuration's limit on a key of this service.
fn key_limit(k: model::Config, service: u32) -> u32
    ensures { result ≡ key_limit k service }
{
    match service {
        model::MAC => k.authkey,
        _ => k.cipherkey,
    }
}

// Key and result lengths by the rules, and the key by the configuration's limit.
#[tactic(auto, unfolding(model::specs::Session::lengths_ok))]
pub fn lengths_ok(k: model::Config, x: model::Session) -> bool
    ensures { result ≡ lengths_ok k x }
{
    key_ok(x.service, x.algo, x.keylen)
        && (x.service == model::HASH || x.keylen <= key_limit(k, x.service))
        && result_ok(x.service, x.algo, x.result)
}

// The session passes step 4 of a create.
#[tactic(auto, unfolding(model::specs::Session::accepts))]
pub fn is_accepted(k: model::Config, x: model::Session) -> bool
    ensures { result ≡ accepts k x }
{
    is_offered(k, x.service, x.algo) && direction_ok(x) && lengths_ok(k, x)
}

// Each mask has only bits of what stands in the rules.
#[tactic(auto, unfolding(model::specs::Setup::only_bits))]
fn masks_ok(k: model::Config) -> bool
    ensures { result ≡ masks_ok k }
{
    k.services & SERVICES == k.services
        && k.ciphers & CIPHERS == k.ciphers
        && k.ciphers2 == 0
        && k.hashes & HASHES == k.hashes
        && k.macs & MACS == k.macs
        && k.macs2 == 0
        && k.aeads & AEADS == k.aeads
}

// Set-up takes a configuration of these fields.
#[tactic(auto, unfolding(model::specs::Setup::config_ok))]
pub fn config_ok(k: model::Config) -> bool
    ensures { result ≡ config_ok k }
{
    k.status == 1
        && matches!(k.queues, 1..=8)
        && masks_ok(k)
        && k.cipherkey <= 64
        && k.authkey <= 64
        && k.reserved == 0
        && k.size <= SIZE_LIMIT
}

// Each reserve is at most its cap and each cap at most 128, and the reserves sum to at most 128.
pub fn shares_ok(reserves: [u8; 8], caps: [u8; 8]) -> bool
    ensures { result ≡ shares_ok reserves caps }
{
    let mut sum = 0;
    for (reserve, cap) in reserves.iter().zip(&caps) {
        if cap < reserve || 128 < *cap {
            return false;
        }
        sum += usize::from(*reserve);
    }
    sum <= 128
}
