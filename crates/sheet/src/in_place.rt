// Lists converted where they stand.
ghost use Rattle.std.specs.Prelude.{◌≡◌, length, slice_index, EachIndex};

// Every value of a list replaced by what convert makes of it.
pub fn convert_each<F: Fn(u64) -> u64>(list: &mut [u64], convert: F)
    requires { EachIndex list.old (λ i. F.pre convert (slice_index list.old i)) }
    ensures size { length list.new ≡ length list.old }
    ensures converted { EachIndex list.old (λ i. F.post convert (slice_index list.old i) (slice_index list.new i)) }
{
    for value in list.iter_mut() {
        *value = convert(*value);
    }
}
