//! The formats of optional members, by name. (Ice manual, "Data Encoding for Optional Values".)

ghost use Rattle.std.specs.Prelude.{codes};
ghost use Rattle.ice_types.specs.declared.optional_format.TheConstants.{FORMAT_F1, FORMAT_F2, FORMAT_F4, FORMAT_F8};
ghost use Rattle.ice_types.specs.declared.optional_format.TheConstants.{FORMAT_SIZE, FORMAT_VSIZE, FORMAT_FSIZE};
ghost use Rattle.ice_types.specs.declared.optional_format.TheConstants.{FORMAT_CLASS};
ghost use Rattle.encaps_optionals.specs.Formats.{IsNamed};

/// Each format stands in the row of its name in the table `formats`.
pub fn formats_named()
    ensures f1 { IsNamed FORMAT_F1 (codes "F1") }
    ensures f2 { IsNamed FORMAT_F2 (codes "F2") }
    ensures f4 { IsNamed FORMAT_F4 (codes "F4") }
    ensures f8 { IsNamed FORMAT_F8 (codes "F8") }
    ensures size { IsNamed FORMAT_SIZE (codes "Size") }
    ensures vsize { IsNamed FORMAT_VSIZE (codes "VSize") }
    ensures fsize { IsNamed FORMAT_FSIZE (codes "FSize") }
    ensures class { IsNamed FORMAT_CLASS (codes "Class") }
{}
