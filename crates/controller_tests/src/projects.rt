//! Project files and what the controller writes for them.

/// One drilled hole.
pub const HOLE: &str = "ISO-10303-21;\n\
    HEADER;\n\
    FILE_DESCRIPTION((''),'2;1');\n\
    FILE_NAME('A','',(''),(''),'','','');\n\
    FILE_SCHEMA(('MACHINING_SCHEMA'));\n\
    ENDSEC;\n\
    DATA;\n\
    #1=PROJECT('P',#2);\n\
    #2=WORKPLAN('MAIN',(#10),$);\n\
    #10=MACHINING_WORKINGSTEP('WS',#50,#20,#30);\n\
    #20=ROUND_HOLE('H',$,(),#60,#51,10.);\n\
    #30=DRILLING($,$,'D',5.,$,#44,#45,$,$,$,$,$);\n\
    #44=MILLING_CUTTING_TOOL('T',#46);\n\
    #45=MILLING_TECHNOLOGY(0.040,$,$,20.);\n\
    #46=TWIST_DRILL(#47);\n\
    #47=MILLING_TOOL_DIMENSION(10.);\n\
    #50=PLANE('SEC',#61);\n\
    #51=PLANE('DEPTH',#62);\n\
    #60=AXIS2_PLACEMENT_3D('',#70,$,$);\n\
    #61=AXIS2_PLACEMENT_3D('',#71,$,$);\n\
    #62=AXIS2_PLACEMENT_3D('',#72,$,$);\n\
    #70=CARTESIAN_POINT('',(10.,20.,0.));\n\
    #71=CARTESIAN_POINT('',(0.,0.,30.));\n\
    #72=CARTESIAN_POINT('',(0.,0.,-15.));\n\
    ENDSEC;\n\
    END-ISO-10303-21;\n";

/// Two drilled holes.
pub const TWO_HOLES: &str = "ISO-10303-21;\n\
    HEADER;\n\
    FILE_DESCRIPTION((''),'2;1');\n\
    FILE_NAME('A','',(''),(''),'','','');\n\
    FILE_SCHEMA(('MACHINING_SCHEMA'));\n\
    ENDSEC;\n\
    DATA;\n\
    #1=PROJECT('P',#2);\n\
    #2=WORKPLAN('MAIN',(#10,#11),$);\n\
    #10=MACHINING_WORKINGSTEP('WS',#50,#20,#30);\n\
    #20=ROUND_HOLE('H',$,(),#60,#51,10.);\n\
    #30=DRILLING($,$,'D',5.,$,#44,#45,$,$,$,$,$);\n\
    #44=MILLING_CUTTING_TOOL('T',#46);\n\
    #45=MILLING_TECHNOLOGY(0.040,$,$,20.);\n\
    #46=TWIST_DRILL(#47);\n\
    #47=MILLING_TOOL_DIMENSION(10.);\n\
    #50=PLANE('SEC',#61);\n\
    #51=PLANE('DEPTH',#62);\n\
    #60=AXIS2_PLACEMENT_3D('',#70,$,$);\n\
    #61=AXIS2_PLACEMENT_3D('',#71,$,$);\n\
    #62=AXIS2_PLACEMENT_3D('',#72,$,$);\n\
    #70=CARTESIAN_POINT('',(10.,20.,0.));\n\
    #71=CARTESIAN_POINT('',(0.,0.,30.));\n\
    #72=CARTESIAN_POINT('',(0.,0.,-15.));\n\
    #11=MACHINING_WORKINGSTEP('W2',#50,#21,#31);\n\
    #21=ROUND_HOLE('G',$,(),#60,#52,10.);\n\
    #31=DRILLING($,$,'E',5.,$,#44,#45);\n\
    #52=PLANE('D2',#63);\n\
    #63=AXIS2_PLACEMENT_3D('',#75,$,$);\n\
    #75=CARTESIAN_POINT('',(0.,0.,-8.));\n\
    ENDSEC;\n\
    END-ISO-10303-21;\n";

/// A face in rows.
pub const FACE: &str = "ISO-10303-21;\n\
    HEADER;\n\
    FILE_DESCRIPTION((''),'2;1');\n\
    FILE_NAME('planar_face','',(''),(''),'','','');\n\
    FILE_SCHEMA(('MACHINING_SCHEMA'));\n\
    ENDSEC;\n\
    DATA;\n\
    #1=PROJECT('FACE',#2);\n\
    #2=WORKPLAN('MAIN',(#10),$);\n\
    #10=MACHINING_WORKINGSTEP('FACE',#50,#20,#30);\n\
    #20=PLANAR_FACE('FACE',$,(),#60,#51,#80,#81);\n\
    #30=PLANE_ROUGH_MILLING($,$,'FACE',5.,$,#44,#45,$,$,$,$,#32,$,$);\n\
    #32=BIDIRECTIONAL($,.T.,$,.LEFT.,$);\n\
    #44=MILLING_CUTTING_TOOL('MILL 20',#46);\n\
    #45=MILLING_TECHNOLOGY(0.040,$,$,20.);\n\
    #46=ENDMILL(#47);\n\
    #47=MILLING_TOOL_DIMENSION(20.);\n\
    #50=PLANE('SECURITY PLANE',#61);\n\
    #51=PLANE('DEPTH',#62);\n\
    #60=AXIS2_PLACEMENT_3D('',#70,$,$);\n\
    #61=AXIS2_PLACEMENT_3D('',#71,$,$);\n\
    #62=AXIS2_PLACEMENT_3D('',#72,$,$);\n\
    #70=CARTESIAN_POINT('',(0.,0.,0.));\n\
    #71=CARTESIAN_POINT('',(0.,0.,30.));\n\
    #72=CARTESIAN_POINT('',(0.,0.,-2.));\n\
    #80=LINEAR_PATH($,100.,#82);\n\
    #81=LINEAR_PROFILE($,50.);\n\
    #82=DIRECTION('',(1.,0.,0.));\n\
    ENDSEC;\n\
    END-ISO-10303-21;\n";

/// A pocket in rings.
pub const POCKET: &str = "ISO-10303-21;\n\
    HEADER;\n\
    FILE_DESCRIPTION((''),'2;1');\n\
    FILE_NAME('rectangular_pocket','',(''),(''),'','','');\n\
    FILE_SCHEMA(('MACHINING_SCHEMA'));\n\
    ENDSEC;\n\
    DATA;\n\
    #1=PROJECT('POCKET',#2);\n\
    #2=WORKPLAN('MAIN',(#10),$);\n\
    #10=MACHINING_WORKINGSTEP('POCKET',#50,#20,#30);\n\
    #20=CLOSED_POCKET('POCKET',$,(),#60,#51,(),$,$,$,$,#80);\n\
    #30=BOTTOM_AND_SIDE_ROUGH_MILLING($,$,'POCKET',5.,$,#44,#45,$,$,$,$,$,$,4.,$,$);\n\
    #44=MILLING_CUTTING_TOOL('MILL 10',#46);\n\
    #45=MILLING_TECHNOLOGY(0.040,$,$,20.);\n\
    #46=ENDMILL(#47);\n\
    #47=MILLING_TOOL_DIMENSION(10.);\n\
    #50=PLANE('SECURITY PLANE',#61);\n\
    #51=PLANE('DEPTH',#62);\n\
    #60=AXIS2_PLACEMENT_3D('',#70,$,$);\n\
    #61=AXIS2_PLACEMENT_3D('',#71,$,$);\n\
    #62=AXIS2_PLACEMENT_3D('',#72,$,$);\n\
    #70=CARTESIAN_POINT('',(0.,0.,0.));\n\
    #71=CARTESIAN_POINT('',(0.,0.,30.));\n\
    #72=CARTESIAN_POINT('',(0.,0.,-5.));\n\
    #80=RECTANGULAR_CLOSED_PROFILE($,40.,20.);\n\
    ENDSEC;\n\
    END-ISO-10303-21;\n";

/// A face, a reamed hole and a pocket, as a CAM system writes them.
pub const PLATE: &str = "ISO-10303-21;\n\
    HEADER;\n\
    /* written by a CAM system */\n\
    FILE_DESCRIPTION(('PLATE'),'2;1');\n\
    FILE_NAME('PLATE.STP','2004-05-01T10:00:00',('A. WRITER'),('SHOP'),'','CAM','');\n\
    FILE_SCHEMA(('MACHINING_SCHEMA','MILLING_SCHEMA'));\n\
    ENDSEC;\n\
    DATA;\n\
    #1=PROJECT('PLATE',#2,(#4),$,$,$);\n\
    #2=WORKPLAN('MAIN WORKPLAN',(#10,#11,#12,#13),$,#8,$);\n\
    #4=WORKPIECE('PLATE',$,0.01,$,$,$,());\n\
    #8=SETUP('SETUP1',$,#50,());\n\
    #9=(GEOMETRIC_REPRESENTATION_CONTEXT(3)REPRESENTATION_CONTEXT('',''));\n\
    #10=MACHINING_WORKINGSTEP('FACE',#50,#16,#20,$);\n\
    #11=MACHINING_WORKINGSTEP('DRILL',#50,#17,#21,$);\n\
    #12=MACHINING_WORKINGSTEP('REAM',#50,#17,#22,$);\n\
    #13=MACHINING_WORKINGSTEP('POCKET',#50,#18,#23,$);\n\
    #16=PLANAR_FACE('FACE',#4,(#20),#60,#51,#24,#25,$,());\n\
    #17=ROUND_HOLE('HOLE',#4,(#21,#22),#61,#52,#34,$,$);\n\
    #18=CLOSED_POCKET('POCKET',#4,(#23),#62,#53,(),$,$,#35,$,#26);\n\
    #20=PLANE_FINISH_MILLING($,$,'F',10.,$,#40,#45,$,$,$,$,#28,2.5,$);\n\
    #21=DRILLING($,$,'D',10.,$,#41,#46,$,$,$,$,$,$,$);\n\
    #22=REAMING($,$,'R',10.,$,#42,#46,$,$,$,$,0.5,$,$,.T.,$,$);\n\
    #23=BOTTOM_AND_SIDE_ROUGH_MILLING($,$,'P',15.,$,#40,#45,$,$,$,$,#29,6.5,5.,1.,0.5);\n\
    #24=LINEAR_PATH($,#36,#74);\n\
    #25=LINEAR_PROFILE($,#37);\n\
    #26=GENERAL_CLOSED_PROFILE($,#27);\n\
    #27=POLYLINE('CONTOUR',(#75,#76,#77,#78,#75));\n\
    #28=BIDIRECTIONAL(0.05,.T.,#74,.LEFT.,$);\n\
    #29=CONTOUR_PARALLEL(0.05,.T.,.CCW.,.CONVENTIONAL.);\n\
    #34=TOLERANCED_LENGTH_MEASURE(22.,#38);\n\
    #35=TOLERANCED_LENGTH_MEASURE(10.,#38);\n\
    #36=TOLERANCED_LENGTH_MEASURE(120.,#38);\n\
    #37=NUMERIC_PARAMETER('PROFILE LENGTH',100.,'MM');\n\
    #38=PLUS_MINUS_VALUE(0.3,0.3,3);\n\
    #40=MILLING_CUTTING_TOOL('MILL',#43,(),80.,$,$);\n\
    #41=MILLING_CUTTING_TOOL('DRILL',#44,(),90.,$,$);\n\
    #42=MILLING_CUTTING_TOOL('REAMER',#47,(),100.,$,$);\n\
    #43=ENDMILL(#48,4,.RIGHT.,.F.,$);\n\
    #44=TWIST_DRILL(#48,2,.RIGHT.,.F.,0.84);\n\
    #45=MILLING_TECHNOLOGY(0.04,.TCP.,$,20.,$,.F.,.F.,.F.,$);\n\
    #46=MILLING_TECHNOLOGY(0.03,.TCP.,$,16.,$,.F.,.F.,.F.,$);\n\
    #47=REAMER(#48,6,.RIGHT.,.F.,$);\n\
    #48=MILLING_TOOL_DIMENSION(20.,$,$,$,$,$,$);\n\
    #50=PLANE('SECURITY',#63);\n\
    #51=PLANE('FACE DEPTH',#64);\n\
    #52=PLANE('HOLE DEPTH',#65);\n\
    #53=PLANE('POCKET DEPTH',#65);\n\
    #60=AXIS2_PLACEMENT_3D('FACE',#70,#79,#80);\n\
    #61=AXIS2_PLACEMENT_3D('HOLE',#71,#79,#80);\n\
    #62=AXIS2_PLACEMENT_3D('POCKET',#72,#79,#80);\n\
    #63=AXIS2_PLACEMENT_3D('SECURITY',#73,#79,#80);\n\
    #64=AXIS2_PLACEMENT_3D('',#81,#79,#80);\n\
    #65=AXIS2_PLACEMENT_3D('',#82,#79,#80);\n\
    #70=CARTESIAN_POINT('',(0.,0.,5.));\n\
    #71=CARTESIAN_POINT('',(20.,60.,0.));\n\
    #72=CARTESIAN_POINT('',(40.,20.,0.));\n\
    #73=CARTESIAN_POINT('',(0.,0.,30.));\n\
    #74=DIRECTION('',(0.,1.,0.));\n\
    #75=CARTESIAN_POINT('',(0.,0.,0.));\n\
    #76=CARTESIAN_POINT('',(0.,80.,0.));\n\
    #77=CARTESIAN_POINT('',(50.,80.,0.));\n\
    #78=CARTESIAN_POINT('',(50.,0.,0.));\n\
    #79=DIRECTION('',(0.,0.,1.));\n\
    #80=DIRECTION('',(1.,0.,0.));\n\
    #81=CARTESIAN_POINT('',(0.,0.,-5.));\n\
    #82=CARTESIAN_POINT('',(0.,0.,-30.));\n\
    ENDSEC;\n\
    END-ISO-10303-21;\n";

/// The log of the drilled hole.
pub const HOLE_LOG: &str = "STEPNC-LOG 1\n\
    D 10 0\n\
    B 10 0 T 44 20000\n\
    B 10 1 R 10000 20000 30000\n\
    B 10 2 R 10000 20000 5000\n\
    B 10 3 F 10000 20000 -15000 40\n\
    B 10 4 R 10000 20000 5000\n\
    B 10 5 R 10000 20000 30000\n\
    E 10\n\
    end done 8\n";

/// Its log up to seven entries.
pub const HOLE_LOG_OF_SEVEN: &str = "STEPNC-LOG 1\n\
    D 10 0\n\
    B 10 0 T 44 20000\n\
    B 10 1 R 10000 20000 30000\n\
    B 10 2 R 10000 20000 5000\n\
    B 10 3 F 10000 20000 -15000 40\n\
    B 10 4 R 10000 20000 5000\n\
    B 10 5 R 10000 20000 30000\n\
    end limit 7\n";

/// The path of its workingstep.
pub const HOLE_PATH: &str = "T 44 20000\n\
    R 10000 20000 30000\n\
    R 10000 20000 5000\n\
    F 10000 20000 -15000 40\n\
    R 10000 20000 5000\n\
    R 10000 20000 30000\n";

/// The path of the face.
pub const FACE_PATH: &str = "T 44 20000\n\
    R 0 0 30000\n\
    R 0 0 5000\n\
    F 0 0 -2000 40\n\
    F 100000 0 -2000 40\n\
    F 100000 20000 -2000 40\n\
    F 0 20000 -2000 40\n\
    F 0 40000 -2000 40\n\
    F 100000 40000 -2000 40\n\
    F 100000 50000 -2000 40\n\
    F 0 50000 -2000 40\n\
    R 0 50000 5000\n\
    R 0 50000 30000\n";

/// The path of the pocket.
pub const POCKET_PATH: &str = "T 44 20000\n\
    R -11000 -1000 30000\n\
    R -11000 -1000 5000\n\
    F -11000 -1000 -5000 40\n\
    F 11000 -1000 -5000 40\n\
    F 11000 1000 -5000 40\n\
    F -11000 1000 -5000 40\n\
    F -11000 -1000 -5000 40\n\
    F -15000 -5000 -5000 40\n\
    F 15000 -5000 -5000 40\n\
    F 15000 5000 -5000 40\n\
    F -15000 5000 -5000 40\n\
    F -15000 -5000 -5000 40\n\
    R -15000 -5000 5000\n\
    R -15000 -5000 30000\n";
