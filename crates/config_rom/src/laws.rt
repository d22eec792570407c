//! Laws of ROMs.
ghost use Rattle.config_rom.specs.OneReading.{EachInputIsARomOrRefused, NoInputIsTwoRoms, NoRomIsRefused, EachRomHasGoodBlocksOrAFault, NoGoodBlocksAreRefused, NoBlocksHaveTwoFaults, NoRomHasTwoLists, NoRomHasTwoTexts};
ghost use Rattle.config_rom.specs.Refused.{RomsAreRefusedSo};
ghost use Rattle.config_rom.specs.SomeText.{RomsHaveTexts};

/// A law: each input is the bytes of a ROM or is refused, none is those of two ROMs, and none of a
/// ROM is refused.
pub fn one_rom()
    ensures some { EachInputIsARomOrRefused }
    ensures rom { NoInputIsTwoRoms }
    ensures apart { NoRomIsRefused }
{}

/// A law: what bytes are refused for, as one line for each fault says it, is what
/// [`decode_rom`](crate::decode_rom) answers.
pub fn roms_are_refused_so()
    ensures { RomsAreRefusedSo }
{}

/// A law: the blocks of each ROM have no fault or a first one, not both, and no two first ones. A
/// ROM has no two lists of blocks and no two texts.
pub fn one_list()
    ensures some { EachRomHasGoodBlocksOrAFault }
    ensures apart { NoGoodBlocksAreRefused }
    ensures fault { NoBlocksHaveTwoFaults }
    ensures list { NoRomHasTwoLists }
    ensures text { NoRomHasTwoTexts }
{}

/// A law: each ROM has a list of blocks and a text, where none of its blocks has a fault.
pub fn roms_have_texts()
    ensures { RomsHaveTexts }
{}
