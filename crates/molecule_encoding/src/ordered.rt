// Bytes that are whole fields in the order of their tags.
ghost use Rattle.std.specs.Prelude.{◌≡◌, true};
ghost use Rattle.fields.specs.Encoding.{whole_fields};
ghost use Rattle.molecule_encoding.specs.Format.{ascending};

#[derive(Clone, Copy)]
pub(crate) struct OrderedFields<'a> {
    pub bytes: &'a [u8],
    ghost ordered: { ascending (whole_fields bytes.now) ≡ true },
}
