//! Limits of certificates.

/// Bytes of a certificate, at most: 64 megabytes.
pub const CERT_BYTES_MOST: usize = 67_108_864;

const _: () = prove!(CERT_BYTES_MOST == 64 * 1_024 * 1_024);
