//! Bytes of an order; past its end there are zeros.

ghost use Rattle.std.specs.Prelude.{◌≡◌, slice_index};
ghost use Rattle.order.specs.Bytes.{bytes_from};

// One byte: a name for the library's call, by the definition that the format goes by.
pub(crate) fn byte_at(order: &[u8], at: usize) -> u8
    ensures { result ≡ slice_index order.now at }
{
    order.get(at).copied().unwrap_or(0)
}

// N bytes, from a place on: the format gives each number its place. If the order has them all, they are taken at once.
pub(crate) fn bytes_at<const N: usize>(order: &[u8], at: usize) -> [u8; N]
    ensures { result ≡ bytes_from order.now at N }
{
    let rest = order.get(at..).unwrap_or(&[]);
    match rest.split_first_chunk() {
        Some((bytes, _)) => *bytes,
        None => std::array::from_fn(|k| byte_at(rest, k)),
    }
}
